//! A run of typed sinks over all its chunks at once.

ghost use Rattle.std.specs.Prelude.{◌≡◌, false, map};
ghost use Rattle.pipe_plan.specs.Run.{is_generic};
ghost use Rattle.pipe_plan.specs.Stores.{stores_seen};
ghost use Rattle.pipe_run.specs.WholeRun.{EndsRun};

use crate::typed_run::TypedRun;
use pipe_aggs::Query;
use pipe_columns::DataChunk;
use pipe_plan::{Limits, SpillAction};
use pipe_run::{GroupByOutput, PipeError, drop_chunks};
use pipe_spill::SpillStore;
use std::alloc::Global;
use std::thread::Threads;

/// The groups of chunks by a query with one key, of which each worker's sink keeps all.
pub(crate) fn run_typed<S: SpillStore + Drop, H: Threads + Sync>(
    rt: &H,
    alloc: Global,
    chunks: Vec<DataChunk>,
    query: &Query,
    limits: &Limits,
    actions: Vec<Vec<SpillAction>>,
    rules: Vec<SpillAction>,
    stores: Vec<S>,
) -> (Result<GroupByOutput, PipeError>, Vec<S>)
    requires typed { is_generic limits.now.sink ≡ false }
    ensures { EndsRun (record {
      query = query.now;
      limits = limits.now;
      actions = map (λ v. v.items) actions.items;
      rules = rules.items;
      stores = stores_seen S.held S.told S.faults S.sure S.path stores.items;
    }) chunks.items result.0 (stores_seen S.held S.told S.faults S.sure S.path result.1.items) }
{
    let run = match TypedRun::begin(alloc, None, query, limits, actions, rules, stores) {
        Ok(run) => run,
        Err((error, stores)) => return (Err(error), stores),
    };
    let (run, spent) = match run.feed(rt, alloc, chunks) {
        Ok(fed) => fed,
        Err((error, stores)) => return (Err(error), stores),
    };
    drop_chunks(rt, alloc, run.limits.workers, spent);
    run.finish(alloc)
}
