//! A worker takes a turn.

ghost use Rattle.std.specs.Prelude.{◌≡◌, ◌+◌, IfErr, IfOk, OnOk, Some, slice_get};
ghost use Rattle.pipe_columns.specs.declared.sink.SinkResult.TheVariants as sink_result;
ghost use Rattle.pipe_plan.specs.Plan.{action_at};
ghost use Rattle.pipe_workers.specs.Turns.{HasStopped, IsReady};
ghost use Rattle.pipe_workers.specs.Workers.{next_position};

use crate::groupby::GenericGroupby2;
use crate::stop::WorkerStop;
use crate::turn::take_turn;
use pipe_columns::{DataChunk, SinkResult};
use pipe_global::{Gate, Naming};
use pipe_plan::SpillAction;
use pipe_spill::SpillStore;
use std::sync::Wait;

impl<'a, S: SpillStore + Drop, R: Naming, G: Gate> GenericGroupby2<'a, S, R, G> {
    /// Takes the chunk that is the worker's next turn, and then the turn's action. Where it is refused
    /// the worker has stopped: nothing but `finalize` may follow.
    pub fn sink<H: Wait>(
        &mut self,
        rt: &H,
        chunk: &DataChunk,
        action: SpillAction,
    ) -> Result<SinkResult, WorkerStop>
        requires ready { IsReady R.run self.old.shares.worker (next_position R.run self.old)
            self.old }
        requires chunk { slice_get R.run.chunks (next_position R.run self.old)
            ≡ Some chunk.now }
        requires action { action ≡ action_at R.run (next_position R.run self.old) }
        ensures answer { IfOk result (λ r. r ≡ sink_result.CanHaveMoreInput) }
        ensures ready { OnOk result (IsReady R.run self.old.shares.worker
            (next_position R.run self.old + 1) self.new) }
        ensures stopped { IfErr result
            (λ end. HasStopped R.run self.old.shares.worker end self.new) }
        ensures open { self.new.closed ≡ self.old.closed }
    {
        let workers = self.shared.workers();
        let position = self.shares.worker() + self.turns * workers;
        let end = take_turn(
            rt,
            &self.shared,
            &mut self.table,
            &mut self.shares,
            &mut self.key,
            position,
            chunk,
            action,
        );
        match end {
            Ok(()) => {
                self.turns += 1;
                Ok(SinkResult::CanHaveMoreInput)
            }
            Err(stop) => {
                self.stopped = true;
                Err(stop)
            }
        }
    }
}
