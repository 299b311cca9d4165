//! The end of a run.

ghost use Rattle.std.specs.Prelude.{◌≡◌, IfErr, IfOk, OnOk, false};
ghost use Rattle.pipe_aggs.specs.QueryTrees.{query_tree};
ghost use Rattle.pipe_model.specs.Output.{output_schema};
ghost use Rattle.pipe_plan.specs.Stores.{stores_seen};
ghost use Rattle.pipe_run.specs.Answered.{HaveWholeFrames, IsAnswered};
ghost use Rattle.pipe_run.specs.AnsweredText.{IsAnsweredText};
ghost use Rattle.pipe_run.specs.Failing.{NoneFailed};
ghost use Rattle.pipe_run.specs.Finish.{IsFinishCause};
ghost use Rattle.pipe_run.specs.Setting.{run_over};

use crate::group_by_run::{GroupByRun, Kind};
use pipe_global::Gate;
use pipe_lines::Lines;
use pipe_run::{GroupByOutput, PipeError, TextOutput};
use pipe_spill::SpillStore;
use std::alloc::Global;
use std::sync::Wait;
use std::thread::Threads;

impl<'a, S: SpillStore + Drop + Send> GroupByRun<'a, S> {
    /// Ends the run: what partitions hold and workers kept gives the groups. The stores come back in
    /// order.
    pub fn finish<G: Gate + Sync, H: Threads + Wait + Sync>(
        self,
        rt: &H,
        alloc: Global,
        gate: &G,
    ) -> (Result<GroupByOutput, PipeError>, Vec<S>)
        ensures answered { IfOk result.0 (λ out. IsAnswered
            (run_over self.entry.setting false self.entry.chunks) out
            (stores_seen S.held S.told S.faults S.sure S.path result.1.items)) }
        ensures unfailed { OnOk result.0 (NoneFailed self.entry.stores
            (stores_seen S.held S.told S.faults S.sure S.path result.1.items)) }
        ensures cause { IfErr result.0 (λ e. IsFinishCause self.entry
            (stores_seen S.held S.told S.faults S.sure S.path result.1.items) e) }
        ensures back { IfErr result.0 (λ _. HaveWholeFrames
            (run_over self.entry.setting false self.entry.chunks)
            (stores_seen S.held S.told S.faults S.sure S.path result.1.items)) }
    {
        match self.kind {
            Kind::Generic(run) => run.finish(rt, alloc, gate),
            Kind::Typed(run) => run.finish(alloc),
        }
    }

    /// Ends the run as `finish` does, and gives the lines of its groups in place of their frame.
    pub fn finish_text<L: Lines + Sync, G: Gate + Sync, H: Threads + Wait + Sync>(
        self,
        rt: &H,
        alloc: Global,
        gate: &G,
        lines: &L,
    ) -> (Result<TextOutput, PipeError>, Vec<S>)
        requires { (L.shape lines.now).fields ≡ output_schema (query_tree self.setting.query) }
        ensures answered { IfOk result.0 (λ out. IsAnsweredText (L.shape lines.now)
            (run_over self.entry.setting false self.entry.chunks) out
            (stores_seen S.held S.told S.faults S.sure S.path result.1.items)) }
        ensures unfailed { OnOk result.0 (NoneFailed self.entry.stores
            (stores_seen S.held S.told S.faults S.sure S.path result.1.items)) }
        ensures cause { IfErr result.0 (λ e. IsFinishCause self.entry
            (stores_seen S.held S.told S.faults S.sure S.path result.1.items) e) }
        ensures back { IfErr result.0 (λ _. HaveWholeFrames
            (run_over self.entry.setting false self.entry.chunks)
            (stores_seen S.held S.told S.faults S.sure S.path result.1.items)) }
    {
        match self.kind {
            Kind::Generic(run) => run.finish_text(rt, alloc, gate, lines),
            Kind::Typed(run) => run.finish_text(alloc, lines),
        }
    }
}
