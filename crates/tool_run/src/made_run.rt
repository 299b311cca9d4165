//! A run over generated rows.

ghost use Rattle.std.specs.Prelude.{◌≡◌, ◌<◌, [], false, IfErr, IfOk};
ghost use Rattle.pipe_plan.specs.Stores.{stores_seen};
ghost use Rattle.pipe_run.specs.Answered.{IsAnswered};
ghost use Rattle.pipe_run.specs.Finish.{IsFinishCause};
ghost use Rattle.pipe_run.specs.Setting.{run_over};
ghost use Rattle.tool_made.specs.Made.{made};
ghost use Rattle.tool_made.specs.MadeQuery.{made_schema};
ghost use Rattle.tool_run.specs.Answering.{AreFedMade, HaveFront};

use crate::feed_made::feed_made;
use pipe_global::Gate;
use pipe_group_by::GroupByRun;
use pipe_run::{GroupByOutput, PipeError};
use pipe_spill::SpillStore;
use std::alloc::Global;
use std::sync::Wait;
use std::thread::Threads;
use tool_made::Made;

/// Feeds all chunks of generated rows into a run that was fed none, so many at a time, and ends the run.
/// The stores come back in order.
pub fn run_made<'a, S: SpillStore + Drop + Send, G: Gate + Sync, H: Threads + Wait + Sync>(
    rt: &H,
    alloc: Global,
    gate: &G,
    run: GroupByRun<'a, S>,
    rows: &Made,
    most: usize,
) -> (Result<GroupByOutput, PipeError>, Vec<S>)
    requires most { 0 < most }
    requires some { 0 < rows.now.chunk }
    requires none { run.chunks ≡ [] }
    requires fits { made_schema ≡ run.setting.query.schema }
    ensures answered { IfOk result.0 (λ out. IsAnswered
        (run_over run.entry.setting false (made rows.now)) out
        (stores_seen S.held S.told S.faults S.sure S.path result.1.items)) }
    ensures cause { IfErr result.0 (λ e. IsFinishCause run.entry
        (stores_seen S.held S.told S.faults S.sure S.path result.1.items) e) }
    ensures back { IfErr result.0 (λ _. HaveFront run.entry.setting
        (AreFedMade rows.now)
        (stores_seen S.held S.told S.faults S.sure S.path result.1.items)) }
{
    let run = match feed_made(rt, alloc, gate, run, rows, most) {
        Ok(run) => run,
        Err((error, stores)) => return (Err(error), stores),
    };
    let (ended, stores) = run.finish(rt, alloc, gate);
    match ended {
        Ok(output) => (Ok(output), stores),
        Err(error) => (Err(error), stores),
    }
}
