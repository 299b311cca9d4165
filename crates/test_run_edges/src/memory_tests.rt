//! A run gives the lines of its groups, and both stores back. Where a call wants memory, as
//! `rt try --test --fail-alloc N` refuses the allocation of number N, the error says so.

use crate::asked::{hold, sum_query};
use crate::texts::{given, is_right};
use pipe_aggs::Query;
use pipe_group_by::PipeError;
use pipe_plan::SinkKind;
use std::alloc::Global;
use std::sync::Wait;
use std::test::Fail;
use std::thread::Threads;

/// Whether a run of a query gives the right lines.
fn gives_right<H: Threads + Wait + Sync>(
    rt: &H,
    alloc: Global,
    query: &Query,
    sink: SinkKind,
    workers: usize,
) -> Result<bool, Fail> {
    let (output, stores) = given(rt, alloc, query, sink, workers)?;
    match &output {
        Ok(output) => Ok(stores == 2 && is_right(output)),
        Err(PipeError::Memory) if stores == 2 => Err("GroupByRun::finish_text wants memory".into()),
        Err(_) => Ok(false),
    }
}

/// Whether a run gives the right lines.
fn gives_lines<H: Threads + Wait + Sync>(
    rt: &H,
    alloc: Global,
    sink: SinkKind,
    workers: usize,
) -> Result<bool, Fail> {
    let query = sum_query(alloc)?;
    let gives = gives_right(rt, alloc, &query, sink, workers);
    drop(query);
    gives
}

#[test]
fn memory_for_lines_in_turn(rt: HostRuntime) -> Result<(), Fail> {
    hold(gives_lines(&rt, rt.alloc(), SinkKind::Generic, 1))
}

#[test]
fn memory_for_lines_side_by_side(rt: HostRuntime) -> Result<(), Fail> {
    hold(gives_lines(&rt, rt.alloc(), SinkKind::Generic, 2))
}

#[test]
fn memory_for_lines_of_a_typed_run(rt: HostRuntime) -> Result<(), Fail> {
    hold(gives_lines(&rt, rt.alloc(), SinkKind::Primitive, 1))
}

#[test]
fn memory_for_lines_of_two_typed_workers(rt: HostRuntime) -> Result<(), Fail> {
    hold(gives_lines(&rt, rt.alloc(), SinkKind::Primitive, 2))
}
