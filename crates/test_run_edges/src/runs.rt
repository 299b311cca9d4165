//! Runs of the generic sink.

use crate::asked::{Pair, chunks_of};
use pipe_aggs::Query;
use pipe_columns::{AnyValue, Column, DataFrame};
use pipe_global::OpenGate;
use pipe_group_by::{GroupByOutput, PipeError, run_group_by};
use pipe_plan::{Limits, SinkKind, SpillAction};
use pipe_spill::SpillStore;
use std::alloc::Global;
use std::sync::Wait;
use std::test::Fail;
use std::thread::Threads;

/// How a run ended, and its stores.
pub(crate) type End<S> = (Result<GroupByOutput, PipeError>, Vec<S>);

/// Limits of workers that keep one key, and send each other row at once.
pub(crate) fn limits_of(sink: SinkKind, workers: usize, partitions: usize) -> Limits {
    Limits {
        sink,
        workers,
        partitions,
        spill_size: 0,
        buffer_size: 1,
        payload_limit: 0,
    }
}

/// For each worker a dump behind each of so many turns.
fn dumps_of(alloc: Global, workers: usize, turns: usize) -> Result<Vec<Vec<SpillAction>>, Fail> {
    let mut lists = Vec::new(alloc);
    for _worker in 0..workers {
        lists.push(Vec::from_elem(alloc, SpillAction::Dump, turns)?)?;
    }
    Ok(lists)
}

/// A run over a chunk for each list of rows: behind each of so many turns what waits in a partition is
/// dumped.
pub(crate) fn run<S: SpillStore + Drop + Send, H: Threads + Wait + Sync>(
    rt: &H,
    alloc: Global,
    query: &Query,
    workers: usize,
    turns: usize,
    lists: &[&[Pair]],
    stores: Vec<S>,
) -> Result<End<S>, Fail> {
    let limits = limits_of(SinkKind::Generic, workers, stores.len());
    let actions = dumps_of(alloc, workers, turns)?;
    let chunks = chunks_of(alloc, lists)?;
    Ok(run_group_by(
        rt, alloc, chunks, query, &limits, actions, stores, &OpenGate,
    ))
}

/// Whether a column has exactly the keys or the sums of groups.
fn has_numbers(column: &Column, groups: &[Pair], sums: bool) -> bool {
    let values = column.values();
    if values.len() != groups.len() {
        return false;
    }
    for at in 0..groups.len() {
        let (key, sum) = groups[at];
        if values[at] != AnyValue::Int(if sums { sum } else { key }) {
            return false;
        }
    }
    true
}

/// Whether a frame has exactly these groups.
pub(crate) fn has_groups(frame: &DataFrame, groups: &[Pair]) -> bool {
    match frame.columns() {
        [keys, sums] => has_numbers(keys, groups, false) && has_numbers(sums, groups, true),
        _ => false,
    }
}
