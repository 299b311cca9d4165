//! A run over all its chunks at once.

ghost use Rattle.std.specs.Prelude.{◌≡◌, ◌≢◌, [], Err, map, vec_len};
ghost use Rattle.pipe_plan.specs.Stores.{stores_seen};
ghost use Rattle.pipe_run.specs.WholeRun.{EndsRun};
ghost use Rattle.pipe_run.specs.declared.error.PipeError.TheVariants as error;

use crate::kind::is_generic;
use crate::typed_whole::run_typed;
use pipe_aggs::Query;
use pipe_columns::DataChunk;
use pipe_global::Gate;
use pipe_plan::{Limits, SpillAction};
use pipe_run::{GroupByOutput, PipeError, run_generic};
use pipe_spill::SpillStore;
use std::alloc::Global;
use std::sync::Wait;
use std::thread::Threads;

/// The groups of chunks by a query: its workers take the chunks in turn, in threads. With the generic
/// sink they spill to the stores, one for each partition, as their actions say; a typed sink keeps all
/// keys. The stores come back in order.
pub fn run_group_by<S: SpillStore + Drop + Send, G: Gate + Sync, H: Threads + Wait + Sync>(
    rt: &H,
    alloc: Global,
    chunks: Vec<DataChunk>,
    query: &Query,
    limits: &Limits,
    actions: Vec<Vec<SpillAction>>,
    stores: Vec<S>,
    gate: &G,
) -> (Result<GroupByOutput, PipeError>, Vec<S>)
    ensures { EndsRun (record {
      query = query.now;
      limits = limits.now;
      actions = map (λ v. v.items) actions.items;
      rules = [];
      stores = stores_seen S.held S.told S.faults S.sure S.path stores.items;
    }) chunks.items result.0 (stores_seen S.held S.told S.faults S.sure S.path result.1.items) }
{
    run_by(
        rt,
        alloc,
        chunks,
        query,
        limits,
        actions,
        Vec::new(alloc),
        stores,
        gate,
    )
}

/// Such groups where each worker has a rule: the action that follows each of its turns past its list.
/// Another number of rules than of workers is refused with `Limits`.
pub fn run_group_by_rules<S: SpillStore + Drop + Send, G: Gate + Sync, H: Threads + Wait + Sync>(
    rt: &H,
    alloc: Global,
    chunks: Vec<DataChunk>,
    query: &Query,
    limits: &Limits,
    actions: Vec<Vec<SpillAction>>,
    rules: Vec<SpillAction>,
    stores: Vec<S>,
    gate: &G,
) -> (Result<GroupByOutput, PipeError>, Vec<S>)
    ensures each { vec_len rules ≢ limits.now.workers → result.0 ≡ Err error.Limits }
    ensures untouched { vec_len rules ≢ limits.now.workers → result.1.items ≡ stores.items }
    ensures ends { vec_len rules ≡ limits.now.workers → EndsRun (record {
      query = query.now;
      limits = limits.now;
      actions = map (λ v. v.items) actions.items;
      rules = rules.items;
      stores = stores_seen S.held S.told S.faults S.sure S.path stores.items;
    }) chunks.items result.0 (stores_seen S.held S.told S.faults S.sure S.path result.1.items) }
{
    if rules.len() != limits.workers {
        return (Err(PipeError::Limits), stores);
    }
    run_by(
        rt, alloc, chunks, query, limits, actions, rules, stores, gate,
    )
}

/// Such groups with any number of rules.
fn run_by<S: SpillStore + Drop + Send, G: Gate + Sync, H: Threads + Wait + Sync>(
    rt: &H,
    alloc: Global,
    chunks: Vec<DataChunk>,
    query: &Query,
    limits: &Limits,
    actions: Vec<Vec<SpillAction>>,
    rules: Vec<SpillAction>,
    stores: Vec<S>,
    gate: &G,
) -> (Result<GroupByOutput, PipeError>, Vec<S>)
    ensures { EndsRun (record {
      query = query.now;
      limits = limits.now;
      actions = map (λ v. v.items) actions.items;
      rules = rules.items;
      stores = stores_seen S.held S.told S.faults S.sure S.path stores.items;
    }) chunks.items result.0 (stores_seen S.held S.told S.faults S.sure S.path result.1.items) }
{
    if !is_generic(limits.sink) {
        return run_typed(rt, alloc, chunks, query, limits, actions, rules, stores);
    }
    run_generic(
        rt, alloc, chunks, query, limits, actions, rules, stores, gate,
    )
}
