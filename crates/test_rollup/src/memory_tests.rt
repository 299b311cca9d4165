//! Commands where memory is wanting.

use crate::asked::{Asked, STATE, asks, run_asked};
use std::alloc::Global;
use std::test::Fail;
use std::thread::Threads;

/// A command ends with these bytes. A refused allocation ends it by its status.
fn judge<H: Threads + Sync>(
    rt: &H,
    alloc: Global,
    asked: Asked<'_>,
    written: &[u8],
) -> Result<(), Fail> {
    let end = run_asked(rt, alloc, asked)?;
    match end.status {
        0 if end.written.as_slice() == written => Ok(()),
        10 => Err("run_rollup wants memory".into()),
        _ => Err("something else".into()),
    }
}

#[test]
fn a_file_where_memory_wants(rt: HostRuntime) -> Result<(), Fail> {
    judge(&rt, rt.alloc(), asks("save", "0", &["a.csv"]), STATE)
}

/// So too of states.
#[test]
fn states_where_memory_wants(rt: HostRuntime) -> Result<(), Fail> {
    let roll = asks("roll", "[\"k\"]", &["b", "a"]);
    judge(&rt, rt.alloc(), roll, b"k,s\n1,12\n")
}
