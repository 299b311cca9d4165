//! Runs over stores in memory.

ghost use Rattle.std.specs.Prelude.{◌≡◌};

use pipe_aggs::Query;
use pipe_columns::DataChunk;
use pipe_global::Gate;
use pipe_group_by::{GroupByOutput, PipeError, run_group_by};
use pipe_plan::{Limits, SinkKind, SpillAction};
use pipe_spill::MemoryStore;
use std::alloc::Global;
use std::sync::Wait;
use std::test::Fail;
use std::thread::Threads;

/// How a run ended, and its stores.
pub(crate) type End = (Result<GroupByOutput, PipeError>, Vec<MemoryStore>);

/// Limits with a kind of sink, workers, partitions and a buffer's size. One key is kept, and no piece
/// may wait behind a dump.
pub(crate) fn limits_of(
    sink: SinkKind,
    workers: usize,
    partitions: usize,
    buffer_size: usize,
) -> Limits
    ensures { result.partitions ≡ partitions }
{
    Limits {
        sink,
        workers,
        partitions,
        spill_size: 0,
        buffer_size,
        payload_limit: 0,
    }
}

/// So many stores in memory.
pub(crate) fn stores_of(alloc: Global, count: usize) -> Result<Vec<MemoryStore>, Fail> {
    let mut stores = Vec::new(alloc);
    for _store in 0..count {
        stores.push(MemoryStore::new(alloc, Vec::new(alloc)))?;
    }
    Ok(stores)
}

/// The same actions for so many workers.
pub(crate) fn actions_of(
    alloc: Global,
    workers: usize,
    actions: &[SpillAction],
) -> Result<Vec<Vec<SpillAction>>, Fail> {
    let mut lists = Vec::new(alloc);
    for _worker in 0..workers {
        lists.push(Vec::from_slice(alloc, actions)?)?;
    }
    Ok(lists)
}

/// The end of a run over chunks, each worker with the same actions.
pub(crate) fn run<G: Gate + Sync, H: Threads + Wait + Sync>(
    rt: &H,
    alloc: Global,
    query: &Query,
    limits: &Limits,
    actions: &[SpillAction],
    chunks: Vec<DataChunk>,
    gate: &G,
) -> Result<End, Fail> {
    let lists = actions_of(alloc, limits.workers, actions)?;
    let stores = stores_of(alloc, limits.partitions)?;
    Ok(run_group_by(rt, alloc, chunks, query, limits, lists, stores, gate))
}
