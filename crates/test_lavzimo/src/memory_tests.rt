//! Runs where memory is wanting: `rt try --test --fail-alloc N` refuses the allocation of number N.

use crate::asked::{Asked, Ended, asks, run_asked};
use crate::questions::{COLUMNS, FILES, MEANS, QUERY, SUMS};
use crate::stores::MemoryStores;
use lavzimo_stores::SpillMaker;
use std::alloc::Global;
use std::sync::Wait;
use std::test::Fail;
use std::thread::Threads;

/// Asks whether a run ended with a text, or with the status and the line of want of memory and a
/// front of the text.
fn judge(ended: &Ended, text: &str) -> Result<(), Fail> {
    if ended.answers(text) {
        return Ok(());
    }
    let line = b"out of memory\n".as_slice();
    if ended.end.status == 10
        && text.as_bytes().starts_with(ended.written())
        && line.starts_with(ended.told())
    {
        return Err("run_lavzimo wants memory".into());
    }
    Err("something else".into())
}

/// Judges a run that is to answer this text.
fn judge_run<M: SpillMaker, H: Alloc<A = Global> + Threads + Wait + Sync>(
    rt: &H,
    maker: &mut M,
    asked: &Asked<'_>,
    text: &str,
) -> Result<(), Fail> {
    let ended = run_asked(rt, maker, asked)?;
    judge(&ended, text)
}

#[test]
fn memory_for_columns(rt: HostRuntime) -> Result<(), Fail> {
    judge_run(
        &rt,
        &mut MemoryStores::new(rt.alloc()),
        &asks(COLUMNS, &FILES),
        MEANS,
    )
}

#[test]
fn memory_for_a_query(rt: HostRuntime) -> Result<(), Fail> {
    judge_run(
        &rt,
        &mut MemoryStores::new(rt.alloc()),
        &asks(QUERY, &FILES),
        SUMS,
    )
}
