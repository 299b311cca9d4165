//! The end of a run that was fed.

ghost use Rattle.std.specs.Prelude.{◌≡◌, ◌≤◌, IfErr, IfOk, OnOk, false, map, vec_capacity, vec_len};
ghost use Rattle.pipe_aggs.specs.QueryTrees.{query_tree};
ghost use Rattle.pipe_model.specs.Output.{output_schema};
ghost use Rattle.pipe_model.specs.Rows.{total_height};
ghost use Rattle.pipe_plan.specs.Stores.{stores_seen};
ghost use Rattle.pipe_run.specs.Answered.{HaveWholeFrames, IsAnswered};
ghost use Rattle.pipe_run.specs.AnsweredText.{IsAnsweredText};
ghost use Rattle.pipe_run.specs.Failing.{NoneFailed};
ghost use Rattle.pipe_run.specs.Fed.{IsFedRun};
ghost use Rattle.pipe_run.specs.Finish.{IsFinishCause};
ghost use Rattle.pipe_run.specs.Setting.{run_over};
ghost use Rattle.pipe_run.specs.Wholes.{IsAnsweredBy};

use crate::answer::answer_of_run;
use crate::begun::Begun;
use crate::error::PipeError;
use crate::output::{Finished, GroupByOutput, TextOutput};
use crate::parts::{Parts, parts_of};
use crate::round::Ended;
use crate::round_of::round;
use crate::run::GenericRun;
use crate::stores::stores_of;
use pipe_asked::{AsFrame, AsText, Form};
use pipe_columns::DataChunk;
use pipe_global::{ClosedPartition, Gate, Journal, Journals};
use pipe_lines::Lines;
use pipe_spill::SpillStore;
use pipe_workers::PausedWorker;
use std::alloc::{AllocError, Global};
use std::snapshot::Snapshot;
use std::sync::Wait;
use std::thread::Threads;

/// Room for so many journals.
fn journal_room(alloc: Global, count: usize) -> Result<Vec<Journal>, AllocError>
    ensures none { IfOk result (λ v. vec_len v ≡ 0) }
    ensures room { IfOk result (λ v. count ≤ vec_capacity v) }
{
    Vec::with_capacity(alloc, count)
}

/// Ends a run that was begun so, with room for its journals and its stores. Its groups become what a form
/// makes of them.
fn finish_with<
    F: Form + Sync,
    S: SpillStore + Drop + Send,
    G: Gate + Sync,
    H: Threads + Wait + Sync,
>(
    rt: &H,
    alloc: Global,
    gate: &G,
    form: &F,
    begun: &Begun<'_, S>,
    chunks: &[Snapshot<DataChunk>],
    closed: Vec<ClosedPartition<S>>,
    rested: Vec<PausedWorker>,
    journals: Vec<Journal>,
    room: Vec<S>,
) -> (Result<Finished<F::Whole>, PipeError>, Vec<S>)
    requires takes { F.takes form.now (output_schema (query_tree begun.now.query)) }
    requires fed { IsFedRun begun.now (map (λ c. c.value) chunks.now) closed.items rested.items
        (total_height (map (λ c. c.value) chunks.now)) }
    requires journals { (vec_len journals ≡ 0) × (vec_len closed ≤ vec_capacity journals) }
    requires room { (vec_len room ≡ 0) × (vec_len closed ≤ vec_capacity room) }
    ensures answered { IfOk result.0 (λ out. IsAnsweredBy (F.is form.now)
        (run_over begun.now false (map (λ c. c.value) chunks.now)) out.whole out.journals out.overflow
        (stores_seen S.held S.told S.faults S.sure S.path result.1.items)) }
    ensures unfailed { OnOk result.0 (NoneFailed (map (λ c. c.store) closed.items)
        (stores_seen S.held S.told S.faults S.sure S.path result.1.items)) }
    ensures cause { IfErr result.0 (λ e. IsFinishCause (record {
      setting = begun.now;
      chunks = map (λ c. c.value) chunks.now;
      journals = map (λ c. c.journal) closed.items;
      stores = map (λ c. c.store) closed.items;
    }) (stores_seen S.held S.told S.faults S.sure S.path result.1.items) e) }
    ensures back { IfErr result.0 (λ _. HaveWholeFrames
        (run_over begun.now false (map (λ c. c.value) chunks.now))
        (stores_seen S.held S.told S.faults S.sure S.path result.1.items)) }
{
    let Ended { closed, rested } = match round(
        rt,
        alloc,
        gate,
        begun,
        false,
        chunks,
        &[],
        closed,
        rested,
    ) {
        Ok(ended) => ended,
        Err((stop, closed)) => return (Err(stop.error()), stores_of(closed, room)),
    };
    let (groups, closed) = answer_of_run(rt, alloc, form, begun, chunks, closed, rested);
    let whole = match groups {
        Ok(whole) => whole,
        Err(error) => return (Err(PipeError::of_groups(error)), stores_of(closed, room)),
    };
    let Parts {
        journals,
        stores,
        arrived,
    } = parts_of(closed, journals, room);
    let finished = Finished {
        whole,
        journals: Journals::new(journals),
        overflow: arrived,
    };
    (Ok(finished), stores)
}

impl<'a, S: SpillStore + Drop + Send> GenericRun<'a, S> {
    /// Ends the run; its groups become what a form makes of them.
    fn finish_as<F: Form + Sync, G: Gate + Sync, H: Threads + Wait + Sync>(
        self,
        rt: &H,
        alloc: Global,
        gate: &G,
        form: &F,
    ) -> (Result<Finished<F::Whole>, PipeError>, Vec<S>)
        requires { F.takes form.now (output_schema (query_tree self.setting.query)) }
        ensures answered { IfOk result.0 (λ out. IsAnsweredBy (F.is form.now)
            (run_over self.entry.setting false self.entry.chunks) out.whole out.journals out.overflow
            (stores_seen S.held S.told S.faults S.sure S.path result.1.items)) }
        ensures unfailed { OnOk result.0 (NoneFailed self.entry.stores
            (stores_seen S.held S.told S.faults S.sure S.path result.1.items)) }
        ensures cause { IfErr result.0 (λ e. IsFinishCause self.entry
            (stores_seen S.held S.told S.faults S.sure S.path result.1.items) e) }
        ensures back { IfErr result.0 (λ _. HaveWholeFrames
            (run_over self.entry.setting false self.entry.chunks)
            (stores_seen S.held S.told S.faults S.sure S.path result.1.items)) }
    {
        let GenericRun {
            begun,
            closed,
            rested,
            chunks,
            rows: _,
            room,
        } = self;
        let Ok(journals) = journal_room(alloc, closed.len()) else {
            return (Err(PipeError::Memory), stores_of(closed, room));
        };
        finish_with(
            rt, alloc, gate, form, &begun, &chunks, closed, rested, journals, room,
        )
    }

    /// Ends the run: the workers close, and the partitions and what the workers kept give the groups.
    /// The stores come back in order.
    pub fn finish<G: Gate + Sync, H: Threads + Wait + Sync>(
        self,
        rt: &H,
        alloc: Global,
        gate: &G,
    ) -> (Result<GroupByOutput, PipeError>, Vec<S>)
        ensures answered { IfOk result.0 (λ out. IsAnswered
            (run_over self.entry.setting false self.entry.chunks) out
            (stores_seen S.held S.told S.faults S.sure S.path result.1.items)) }
        ensures unfailed { OnOk result.0 (NoneFailed self.entry.stores
            (stores_seen S.held S.told S.faults S.sure S.path result.1.items)) }
        ensures cause { IfErr result.0 (λ e. IsFinishCause self.entry
            (stores_seen S.held S.told S.faults S.sure S.path result.1.items) e) }
        ensures back { IfErr result.0 (λ _. HaveWholeFrames
            (run_over self.entry.setting false self.entry.chunks)
            (stores_seen S.held S.told S.faults S.sure S.path result.1.items)) }
    {
        let (finished, stores) = self.finish_as(rt, alloc, gate, &AsFrame);
        match finished {
            Ok(finished) => (Ok(finished.as_frame()), stores),
            Err(error) => (Err(error), stores),
        }
    }

    /// Ends the run as `finish` does, and gives the lines of its groups in place of their frame.
    pub fn finish_text<L: Lines + Sync, G: Gate + Sync, H: Threads + Wait + Sync>(
        self,
        rt: &H,
        alloc: Global,
        gate: &G,
        lines: &L,
    ) -> (Result<TextOutput, PipeError>, Vec<S>)
        requires { (L.shape lines.now).fields ≡ output_schema (query_tree self.setting.query) }
        ensures answered { IfOk result.0 (λ out. IsAnsweredText (L.shape lines.now)
            (run_over self.entry.setting false self.entry.chunks) out
            (stores_seen S.held S.told S.faults S.sure S.path result.1.items)) }
        ensures unfailed { OnOk result.0 (NoneFailed self.entry.stores
            (stores_seen S.held S.told S.faults S.sure S.path result.1.items)) }
        ensures cause { IfErr result.0 (λ e. IsFinishCause self.entry
            (stores_seen S.held S.told S.faults S.sure S.path result.1.items) e) }
        ensures back { IfErr result.0 (λ _. HaveWholeFrames
            (run_over self.entry.setting false self.entry.chunks)
            (stores_seen S.held S.told S.faults S.sure S.path result.1.items)) }
    {
        let (finished, stores) = self.finish_as(rt, alloc, gate, &AsText { lines });
        match finished {
            Ok(finished) => (Ok(finished.as_text()), stores),
            Err(error) => (Err(error), stores),
        }
    }
}
