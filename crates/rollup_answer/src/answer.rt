//! The answers to what words ask for.

ghost use Rattle.std.specs.Prelude.{◌≡◌, ◌<◌, ◌≤◌, IfErr, IfOk, IfSome, IsErrOf, None, Some};
ghost use Rattle.std.specs.Io.KnownBytes.{Appends};
ghost use Rattle.pipe_aggs.specs.Faults.{first_fault};
ghost use Rattle.pipe_aggs.specs.QueryTrees.{query_tree};
ghost use Rattle.pipe_columns.specs.Causes.{Rose};
ghost use Rattle.pipe_csv.specs.Texts.{csv_text};
ghost use Rattle.pipe_io.specs.Output.{WroteFront};
ghost use Rattle.pipe_io.specs.Tried.{TriedFront};
ghost use Rattle.pipe_states.specs.Together.{AreKept};
ghost use Rattle.rollup_roll.specs.Rolled.{AreRolled, IsRefusal};
ghost use Rattle.rollup_roll.specs.declared.roll_error.RollError.TheVariants as roll_error;
ghost use Rattle.rollup_words.specs.Asked.{rolls, saves};
ghost use Rattle.rollup_answer.specs.Faults.{IsCaused, status_of};
ghost use Rattle.rollup_answer.specs.Headline.{IsBegun, IsWritten};
ghost use Rattle.rollup_answer.specs.Inside.{IsBefore, IsOfOutput};
ghost use Rattle.rollup_answer.specs.declared.fault.RollupFault.TheVariants as fault;

use crate::fault::RollupFault;
use pipe_aggs::CheckError;
use pipe_columns::DataFrame;
use pipe_io::{InputFiles, Output, OutputError, write_all};
use pipe_writers::{WriteError, write_csv};
use rollup_roll::{RollError, roll_files};
use rollup_save::save_files;
use rollup_words::{RollQuestion, SaveQuestion};
use std::alloc::Global;
use std::hash::RandomState;
use std::thread::Threads;
use tool_shell::INPUT_FAILED;

/// Writes a text.
fn write_text<O: Output>(output: &mut O, text: &[u8]) -> Option<RollupFault>
    ensures done { result ≡ None → Appends (O.told output.old) (O.told output.new) text.now }
    ensures begun { IfSome result
        (λ _. WroteFront (O.told output.old) (O.told output.new) text.now) }
    ensures output_failed { result ≡ Some fault.OutputFailed
        → Rose (O.faults output.old) (O.faults output.new) }
    ensures faults { IfSome result IsOfOutput }
{
    match write_all(output, text) {
        Ok(()) => None,
        Err(OutputError::Failed) => Some(RollupFault::OutputFailed),
        Err(OutputError::Memory) => Some(RollupFault::Memory),
    }
}

/// Writes a frame as CSV.
fn write_frame<O: Output>(alloc: Global, output: &mut O, frame: &DataFrame) -> Option<RollupFault>
    ensures done { result ≡ None
        → Appends (O.told output.old) (O.told output.new) (csv_text frame.now) }
    ensures begun { IfSome result
        (λ _. WroteFront (O.told output.old) (O.told output.new) (csv_text frame.now)) }
    ensures output_failed { result ≡ Some fault.OutputFailed
        → Rose (O.faults output.old) (O.faults output.new) }
    ensures faults { IfSome result IsOfOutput }
{
    match write_csv(alloc, output, frame) {
        Ok(()) => None,
        Err(WriteError::Output) => Some(RollupFault::OutputFailed),
        Err(WriteError::Memory) => Some(RollupFault::Memory),
    }
}

/// Reads files in so many threads, and writes the text of their state. Tables hash under keys.
pub(crate) fn answer_save<I: InputFiles, O: Output, H: Threads + Sync>(
    rt: &H,
    alloc: Global,
    threads: usize,
    hash_keys: Option<RandomState>,
    question: SaveQuestion,
    input: &mut I,
    output: &mut O,
) -> Option<RollupFault>
    requires threads { 0 < threads }
    requires faultless { first_fault question.query ≡ None }
    ensures written { result ≡ None
        → IsWritten (saves (query_tree question.query) question.first question.files.items)
        (I.told input.old) (O.told output.old) (O.told output.new) }
    ensures cause { IfSome result (λ f. IsCaused f
        (saves (query_tree question.query) question.first question.files.items)
        (I.told input.old)) }
    ensures input_failed { IfSome result (λ f. status_of f ≡ INPUT_FAILED
        → Rose (I.faults input.old) (I.faults input.new)) }
    ensures tried { TriedFront (I.tried input.old) (I.tried input.new) question.files.items }
    ensures output_failed { result ≡ Some fault.OutputFailed
        → Rose (O.faults output.old) (O.faults output.new) }
    ensures begun { IfSome result (λ f. IsOfOutput f
        → IsBegun (saves (query_tree question.query) question.first question.files.items)
        (I.told input.old) (O.told output.old) (O.told output.new)) }
    ensures untouched { IfSome result (λ f. IsBefore f → output.new ≡ output.old) }
    ensures told { I.told input.new ≡ I.told input.old }
    ensures later { I.faults input.old ≤ I.faults input.new }
{
    let SaveQuestion {
        query,
        first,
        files,
    } = question;
    match save_files(rt, alloc, threads, hash_keys, query, first, input, files) {
        Ok(text) => write_text(output, &text),
        Err(error) => Some(RollupFault::Save(error)),
    }
}

/// What the states in files come to by the keys that are kept. Tables hash under keys.
fn roll_question<I: InputFiles>(
    alloc: Global,
    hash_keys: Option<RandomState>,
    question: &RollQuestion,
    input: &mut I,
) -> Result<DataFrame, RollError>
    requires faultless { first_fault question.now.query ≡ None }
    requires kept { AreKept (query_tree question.now.query) question.now.keep.items }
    ensures rolled { IfOk result (AreRolled (query_tree question.now.query) question.now.keep.items
        (I.told input.old) question.now.files.items) }
    ensures refused { IfErr result (λ e. IsRefusal e (query_tree question.now.query)
        (I.told input.old) question.now.files.items) }
    ensures tried { TriedFront (I.tried input.old) (I.tried input.new) question.now.files.items }
    ensures cause { IsErrOf result roll_error.Input
        → Rose (I.faults input.old) (I.faults input.new) }
    ensures told { I.told input.new ≡ I.told input.old }
    ensures later { I.faults input.old ≤ I.faults input.new }
{
    match question.query.check(alloc) {
        Ok(mut checked) => {
            checked.hash_under(hash_keys);
            roll_files(alloc, &checked, &question.keep, input, &question.files)
        }
        Err(CheckError::Memory) => Err(RollError::Memory),
        Err(CheckError::Fault(_)) => unreachable!(),
    }
}

/// Reads the states in files, and writes what they come to by the keys that are kept. Tables hash
/// under keys.
pub(crate) fn answer_roll<I: InputFiles, O: Output>(
    alloc: Global,
    hash_keys: Option<RandomState>,
    question: &RollQuestion,
    input: &mut I,
    output: &mut O,
) -> Option<RollupFault>
    requires faultless { first_fault question.now.query ≡ None }
    requires kept { AreKept (query_tree question.now.query) question.now.keep.items }
    ensures written { result ≡ None → IsWritten (rolls (query_tree question.now.query)
        question.now.keep.items question.now.files.items) (I.told input.old) (O.told output.old)
        (O.told output.new) }
    ensures cause { IfSome result (λ f. IsCaused f (rolls (query_tree question.now.query)
        question.now.keep.items question.now.files.items) (I.told input.old)) }
    ensures input_failed { IfSome result (λ f. status_of f ≡ INPUT_FAILED
        → Rose (I.faults input.old) (I.faults input.new)) }
    ensures tried { TriedFront (I.tried input.old) (I.tried input.new) question.now.files.items }
    ensures output_failed { result ≡ Some fault.OutputFailed
        → Rose (O.faults output.old) (O.faults output.new) }
    ensures begun { IfSome result (λ f. IsOfOutput f → IsBegun (rolls
        (query_tree question.now.query) question.now.keep.items question.now.files.items)
        (I.told input.old) (O.told output.old) (O.told output.new)) }
    ensures untouched { IfSome result (λ f. IsBefore f → output.new ≡ output.old) }
    ensures told { I.told input.new ≡ I.told input.old }
    ensures later { I.faults input.old ≤ I.faults input.new }
{
    match roll_question(alloc, hash_keys, question, input) {
        Ok(frame) => write_frame(alloc, output, &frame),
        Err(error) => Some(RollupFault::Roll(error)),
    }
}
