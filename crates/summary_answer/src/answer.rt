//! What is done to the summary in a store.

ghost use Rattle.std.specs.Prelude.{◌≡◌, ◌<◌, [], IfSome, None, Some, false};
ghost use Rattle.std.specs.Io.KnownBytes.{Appends};
ghost use Rattle.pipe_aggs.specs.QueryTrees.{query_tree};
ghost use Rattle.pipe_columns.specs.Causes.{Rose};
ghost use Rattle.pipe_csv.specs.Texts.{csv_text};
ghost use Rattle.pipe_csv.specs.declared.csv_error.CsvError.TheVariants as csv_error;
ghost use Rattle.pipe_io.specs.Output.{WroteFront};
ghost use Rattle.pipe_io.specs.Tried.{TriedFront};
ghost use Rattle.pipe_summary.specs.InTurn.{HoldsStates};
ghost use Rattle.summary_words.specs.Asked.{adds, shows};
ghost use Rattle.summary_answer.specs.Faults.{IsCaused};
ghost use Rattle.summary_answer.specs.Headline.{HasAdded, HasBegun};
ghost use Rattle.summary_answer.specs.Inside.{HasPrinted, IsOfOutput, LeavesOutput};
ghost use Rattle.summary_answer.specs.Opened.{opened};
ghost use Rattle.summary_answer.specs.declared.fault.SummaryFault.TheVariants as fault;

use crate::fault::{SummaryFault, added_fault, read_fault};
use pipe_aggs::CheckedQuery;
use pipe_columns::{DataFrame, Schema, Text};
use pipe_io::{InputFiles, Output};
use pipe_spill::SpillStore;
use pipe_summary::Summary;
use pipe_writers::{WriteError, write_csv};
use std::alloc::Global;
use std::thread::Threads;
use summary_add::add_files;

/// Adds files to the summary in a store, by a query of which the schema is at hand.
pub(crate) fn add_to<S: SpillStore + Drop, I: InputFiles, H: Threads + Sync>(
    rt: &H,
    alloc: Global,
    threads: usize,
    query: &CheckedQuery<'_>,
    schema: Schema,
    files: Vec<Text>,
    store: S,
    input: &mut I,
) -> (Option<SummaryFault>, S)
    requires threads { 0 < threads }
    requires unordered { (query_tree query.now).keeps_order ≡ false }
    requires schema { schema ≡ query.now.schema }
    ensures added { result.0 ≡ None → HasAdded (query_tree query.now) files.items (I.told input.old)
        (S.told store) (S.held store) (S.told result.1) [] }
    ensures cause { IfSome result.0 (λ f. IsCaused f (adds (query_tree query.now) files.items)
        (opened (S.told store) (S.held store)) (I.told input.old)) }
    ensures kept { IfSome result.0 (λ _. S.told result.1 ≡ S.told store) }
    ensures sure { S.sure result.1 ≡ S.sure store }
    ensures path { S.path result.1 ≡ S.path store }
    ensures input_failed { result.0 ≡ Some (fault.Read csv_error.Input)
        → Rose (I.faults input.old) (I.faults input.new) }
    ensures store_failed { result.0 ≡ Some fault.Store → Rose (S.faults store) (S.faults result.1) }
    ensures not_output { result.0 ≡ Some fault.OutputFailed → ⊥ }
    ensures tried { TriedFront (I.tried input.old) (I.tried input.new) files.items }
{
    let mut summary = match Summary::open(alloc, query, store) {
        Ok(summary) => summary,
        Err((error, store)) => return (Some(read_fault(error)), store),
    };
    let added = add_files(rt, alloc, threads, &mut summary, schema, input, files);
    (added_fault(added), summary.into_store())
}

/// Writes a frame as CSV.
fn write_frame<O: Output>(alloc: Global, output: &mut O, frame: &DataFrame) -> Option<SummaryFault>
    ensures done { result ≡ None
        → Appends (O.told output.old) (O.told output.new) (csv_text frame.now) }
    ensures begun { IfSome result
        (λ _. WroteFront (O.told output.old) (O.told output.new) (csv_text frame.now)) }
    ensures output_failed { result ≡ Some fault.OutputFailed
        → Rose (O.faults output.old) (O.faults output.new) }
    ensures faults { IfSome result IsOfOutput }
{
    match write_csv(alloc, output, frame) {
        Ok(()) => None,
        Err(WriteError::Output) => Some(SummaryFault::OutputFailed),
        Err(WriteError::Memory) => Some(SummaryFault::Memory),
    }
}

/// Writes the answer of a summary.
fn show<'a, S: SpillStore + Drop, O: Output>(
    alloc: Global,
    summary: &mut Summary<'a, S>,
    output: &mut O,
) -> Option<SummaryFault>
    requires { HoldsStates (query_tree summary.old.query) (S.told summary.old.store)
        (S.held summary.old.store) summary.old.states }
    ensures printed { result ≡ None → HasPrinted (query_tree summary.old.query)
        (S.told summary.old.store) (S.held summary.old.store) (O.told output.old) (O.told output.new) }
    ensures output { IfSome result (λ f. LeavesOutput f (output.new ≡ output.old)
        (HasBegun (query_tree summary.old.query) (S.told summary.old.store)
        (S.held summary.old.store) (O.told output.old) (O.told output.new))) }
    ensures cause { IfSome result (λ f. IsCaused f (shows (query_tree summary.old.query))
        (opened (S.told summary.old.store) (S.held summary.old.store)) None) }
    ensures output_failed { result ≡ Some fault.OutputFailed
        → Rose (O.faults output.old) (O.faults output.new) }
    ensures store_failed { result ≡ Some fault.Store
        → Rose (S.faults summary.old.store) (S.faults summary.new.store) }
    ensures not_read { result ≡ Some (fault.Read csv_error.Input) → ⊥ }
    ensures told { S.told summary.new.store ≡ S.told summary.old.store }
    ensures sure { S.sure summary.new.store ≡ S.sure summary.old.store }
    ensures path { S.path summary.new.store ≡ S.path summary.old.store }
{
    match summary.answer() {
        Ok(frame) => write_frame(alloc, output, &frame),
        Err(error) => Some(read_fault(error)),
    }
}

/// Shows the answer of the summary in a store.
pub(crate) fn show_of<S: SpillStore + Drop, O: Output>(
    alloc: Global,
    query: &CheckedQuery<'_>,
    store: S,
    output: &mut O,
) -> (Option<SummaryFault>, S)
    requires unordered { (query_tree query.now).keeps_order ≡ false }
    ensures printed { result.0 ≡ None → HasPrinted (query_tree query.now) (S.told store) (S.held store)
        (O.told output.old) (O.told output.new) }
    ensures output { IfSome result.0 (λ f. LeavesOutput f (output.new ≡ output.old)
        (HasBegun (query_tree query.now) (S.told store) (S.held store) (O.told output.old)
        (O.told output.new))) }
    ensures cause { IfSome result.0 (λ f. IsCaused f (shows (query_tree query.now))
        (opened (S.told store) (S.held store)) None) }
    ensures output_failed { result.0 ≡ Some fault.OutputFailed
        → Rose (O.faults output.old) (O.faults output.new) }
    ensures store_failed { result.0 ≡ Some fault.Store → Rose (S.faults store) (S.faults result.1) }
    ensures not_read { result.0 ≡ Some (fault.Read csv_error.Input) → ⊥ }
    ensures told { S.told result.1 ≡ S.told store }
    ensures sure { S.sure result.1 ≡ S.sure store }
    ensures path { S.path result.1 ≡ S.path store }
{
    let mut summary = match Summary::open(alloc, query, store) {
        Ok(summary) => summary,
        Err((error, store)) => return (Some(read_fault(error)), store),
    };
    let ended = show(alloc, &mut summary, output);
    (ended, summary.into_store())
}
