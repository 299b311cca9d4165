//! A run over all its chunks at once.

ghost use Rattle.std.specs.Prelude.{◌≡◌, map, true};
ghost use Rattle.pipe_plan.specs.Run.{is_generic};
ghost use Rattle.pipe_plan.specs.Stores.{stores_seen};
ghost use Rattle.pipe_run.specs.WholeRun.{EndsRun};

use crate::begin::checked_query;
use crate::chunk_check::checked_rows;
use crate::error::PipeError;
use crate::output::GroupByOutput;
use crate::run::GenericRun;
use pipe_aggs::Query;
use pipe_columns::DataChunk;
use pipe_global::Gate;
use pipe_plan::{Limits, SpillAction};
use pipe_spill::SpillStore;
use std::alloc::{AllocError, Global};
use std::sync::Wait;
use std::thread::Threads;

/// The groups of chunks by a query: its workers take the chunks in turn, in threads, and spill to the
/// stores, one for each partition, as their actions say. The stores come back in order.
pub fn run_generic<S: SpillStore + Drop + Send, G: Gate + Sync, H: Threads + Wait + Sync>(
    rt: &H,
    alloc: Global,
    chunks: Vec<DataChunk>,
    query: &Query,
    limits: &Limits,
    actions: Vec<Vec<SpillAction>>,
    rules: Vec<SpillAction>,
    stores: Vec<S>,
    gate: &G,
) -> (Result<GroupByOutput, PipeError>, Vec<S>)
    requires generic { is_generic limits.now.sink ≡ true }
    ensures { EndsRun (record {
      query = query.now;
      limits = limits.now;
      actions = map (λ v. v.items) actions.items;
      rules = rules.items;
      stores = stores_seen S.held S.told S.faults S.sure S.path stores.items;
    }) chunks.items result.0 (stores_seen S.held S.told S.faults S.sure S.path result.1.items) }
{
    let checked = match checked_query(alloc, query, limits, actions.len(), &stores) {
        Ok(checked) => checked,
        Err(error) => return (Err(error), stores),
    };
    let _rows = match checked_rows(&checked, &[], 0, &chunks) {
        Ok(rows) => rows,
        Err(error) => return (Err(error), stores),
    };
    let run = match GenericRun::before_chunks(rt, alloc, checked, limits, actions, rules, stores) {
        Ok(run) => run,
        Err((AllocError, stores)) => return (Err(PipeError::Memory), stores),
    };
    let run = match run.feed(rt, alloc, gate, chunks) {
        Ok(run) => run,
        Err((error, stores)) => return (Err(error), stores),
    };
    run.finish(rt, alloc, gate)
}
