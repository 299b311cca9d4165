//! A run that is fed generated rows.

ghost use Rattle.std.specs.Prelude.{◌≡◌, ◌<◌, [], IfErr, IfOk};
ghost use Rattle.pipe_plan.specs.Stores.{stores_seen};
ghost use Rattle.pipe_run.specs.Failing.{NoneFailed};
ghost use Rattle.pipe_run.specs.Finish.{IsFinishCause};
ghost use Rattle.tool_made.specs.Made.{made};
ghost use Rattle.tool_made.specs.MadeQuery.{made_schema};
ghost use Rattle.tool_run.specs.Answering.{AreFedMade, HaveFront};

use pipe_global::Gate;
use pipe_group_by::GroupByRun;
use pipe_run::PipeError;
use pipe_spill::SpillStore;
use std::alloc::{AllocError, Global};
use std::sync::Wait;
use std::thread::Threads;
use tool_made::{Made, made_round};

/// Feeds all chunks of generated rows into a run that was fed none, so many at a time. The chunks of a
/// round are dropped before the next are made.
pub(crate) fn feed_made<'a, S: SpillStore + Drop + Send, G: Gate + Sync, H: Threads + Wait + Sync>(
    rt: &H,
    alloc: Global,
    gate: &G,
    run: GroupByRun<'a, S>,
    rows: &Made,
    most: usize,
) -> Result<GroupByRun<'a, S>, (PipeError, Vec<S>)>
    requires most { 0 < most }
    requires some { 0 < rows.now.chunk }
    requires none { run.chunks ≡ [] }
    requires fits { made_schema ≡ run.setting.query.schema }
    ensures setting { IfOk result (λ r. r.setting ≡ run.entry.setting) }
    ensures all { IfOk result (λ r. r.chunks ≡ made rows.now) }
    ensures counted { IfOk result (λ r. NoneFailed run.entry.stores r.stores) }
    ensures cause { IfErr result (λ e. IsFinishCause run.entry
        (stores_seen S.held S.told S.faults S.sure S.path e.1.items) e.0) }
    ensures back { IfErr result (λ e. HaveFront run.entry.setting
        (AreFedMade rows.now)
        (stores_seen S.held S.told S.faults S.sure S.path e.1.items)) }
{
    let total = rows.chunks();
    let mut run = run;
    let mut first = 0;
    while first < total {
        let count = most.min(total - first);
        let chunks = match made_round(rt, alloc, rows, first, count) {
            Ok(chunks) => chunks,
            Err(AllocError) => return Err((PipeError::Memory, run.into_stores())),
        };
        run = match run.feed(rt, alloc, gate, chunks) {
            Ok(run) => run,
            Err((error, stores)) => return Err((error, stores)),
        };
        first += count;
    }
    Ok(run)
}
