//! The end of a run of typed sinks.

ghost use Rattle.std.specs.Prelude.{◌≡◌, ◌<◌, IfErr, IfOk, OnOk, false, map, vec_len};
ghost use Rattle.pipe_aggs.specs.QueryTrees.{query_tree};
ghost use Rattle.pipe_columns.specs.Frame.{FitsSchema};
ghost use Rattle.pipe_model.specs.Answer.{answer};
ghost use Rattle.pipe_model.specs.Output.{output_schema};
ghost use Rattle.pipe_model.specs.Rows.{AreChunksOf};
ghost use Rattle.pipe_plan.specs.Stores.{stores_seen};
ghost use Rattle.pipe_run.specs.Answered.{HaveWholeFrames, IsAnswered};
ghost use Rattle.pipe_run.specs.AnsweredText.{IsAnsweredText};
ghost use Rattle.pipe_run.specs.Failing.{NoneFailed};
ghost use Rattle.pipe_run.specs.Finish.{IsFinishCause};
ghost use Rattle.pipe_run.specs.Setting.{run_over};
ghost use Rattle.pipe_group_by.specs.Taken.{HaveTaken};
ghost use Rattle.pipe_group_by.specs.Typed.{IsTextOf, no_journals};

use crate::combined::groups_of;
use crate::typed_run::TypedRun;
use pipe_aggs::CheckedQuery;
use pipe_asked::{AsText, Form};
use pipe_columns::DataChunk;
use pipe_global::{Journal, Journals};
use pipe_lines::Lines;
use pipe_run::{GroupByOutput, PipeError, TextOutput};
use pipe_sinks::PausedSink;
use pipe_spill::SpillStore;
use std::alloc::{AllocError, Global};
use std::snapshot::Snapshot;

/// The journals of so many partitions, none with an event.
fn no_journals(alloc: Global, partitions: usize) -> Result<Journals, AllocError>
    ensures { IfOk result (λ j. j ≡ no_journals partitions) }
{
    let mut journals = Vec::with_capacity(alloc, partitions)?;
    for _partition in 0..partitions {
        journals.push(Journal::new(alloc))?;
    }
    Ok(Journals::new(journals))
}

/// What a run of typed sinks gives.
fn output_of(
    alloc: Global,
    query: &CheckedQuery<'_>,
    partitions: usize,
    chunks: &[Snapshot<DataChunk>],
    sinks: Vec<PausedSink>,
) -> Result<GroupByOutput, AllocError>
    requires some { 0 < vec_len sinks }
    requires asked { AreChunksOf (query_tree query.now) (map (λ c. c.value) chunks.now) }
    requires taken { HaveTaken query.now partitions (vec_len sinks)
        (map (λ c. c.value) chunks.now) sinks.items }
    ensures frame { IfOk result (λ out. out.frame
        ≡ answer (map (λ c. c.value) chunks.now) (query_tree query.now) partitions) }
    ensures journals { IfOk result (λ out. out.journals ≡ no_journals partitions) }
    ensures overflow { IfOk result (λ out. out.overflow ≡ 0) }
{
    let journals = no_journals(alloc, partitions)?;
    let frame = groups_of(query, partitions, chunks, sinks)?;
    Ok(GroupByOutput {
        frame,
        journals,
        overflow: 0,
    })
}

/// What a run gives, with the lines of its groups in place of their frame.
fn text_of<L: Lines>(
    alloc: Global,
    lines: &L,
    output: GroupByOutput,
) -> Result<TextOutput, AllocError>
    requires { FitsSchema (L.shape lines.now).fields output.frame }
    ensures { IfOk result (λ out. IsTextOf (L.shape lines.now) output out) }
{
    let GroupByOutput {
        frame,
        journals,
        overflow,
    } = output;
    let text = AsText { lines }.of_frame(alloc, frame)?;
    Ok(TextOutput {
        text,
        journals,
        overflow,
    })
}

impl<'a, S: SpillStore + Drop> TypedRun<'a, S> {
    /// Ends the run: the sinks are combined into one, which gives the groups. The stores come back in
    /// order.
    pub(crate) fn finish(self, alloc: Global) -> (Result<GroupByOutput, PipeError>, Vec<S>)
        ensures answered { IfOk result.0 (λ out. IsAnswered
            (run_over self.entry.setting false self.entry.chunks) out
            (stores_seen S.held S.told S.faults S.sure S.path result.1.items)) }
        ensures fits { IfOk result.0 (λ out. FitsSchema
            (output_schema (query_tree self.entry.setting.query)) out.frame) }
        ensures same { stores_seen S.held S.told S.faults S.sure S.path result.1.items
            ≡ self.entry.stores }
        ensures unfailed { NoneFailed self.entry.stores
            (stores_seen S.held S.told S.faults S.sure S.path result.1.items) }
        ensures cause { IfErr result.0 (λ e. IsFinishCause self.entry
            (stores_seen S.held S.told S.faults S.sure S.path result.1.items) e) }
        ensures back { HaveWholeFrames
            (run_over self.entry.setting false self.entry.chunks)
            (stores_seen S.held S.told S.faults S.sure S.path result.1.items) }
    {
        let TypedRun {
            query,
            limits,
            stores,
            sinks,
            chunks,
            ..
        } = self;
        match output_of(alloc, &query, limits.partitions, &chunks, sinks) {
            Ok(output) => (Ok(output), stores),
            Err(AllocError) => (Err(PipeError::Memory), stores),
        }
    }

    /// Ends the run as `finish` does, and gives the lines of its groups in place of their frame.
    pub(crate) fn finish_text<L: Lines>(
        self,
        alloc: Global,
        lines: &L,
    ) -> (Result<TextOutput, PipeError>, Vec<S>)
        requires { (L.shape lines.now).fields ≡ output_schema (query_tree self.setting.query) }
        ensures answered { IfOk result.0 (λ out. IsAnsweredText (L.shape lines.now)
            (run_over self.entry.setting false self.entry.chunks) out
            (stores_seen S.held S.told S.faults S.sure S.path result.1.items)) }
        ensures unfailed { NoneFailed self.entry.stores
            (stores_seen S.held S.told S.faults S.sure S.path result.1.items) }
        ensures cause { IfErr result.0 (λ e. IsFinishCause self.entry
            (stores_seen S.held S.told S.faults S.sure S.path result.1.items) e) }
        ensures back { HaveWholeFrames
            (run_over self.entry.setting false self.entry.chunks)
            (stores_seen S.held S.told S.faults S.sure S.path result.1.items) }
    {
        let (given, stores) = self.finish(alloc);
        let output = match given {
            Ok(output) => output,
            Err(error) => return (Err(error), stores),
        };
        match text_of(alloc, lines, output) {
            Ok(text) => (Ok(text), stores),
            Err(AllocError) => (Err(PipeError::Memory), stores),
        }
    }
}
