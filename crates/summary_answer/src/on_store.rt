//! The answers to what words ask for, over the store of a summary.

ghost use Rattle.std.specs.Prelude.{◌≡◌, ◌<◌, [], IfOk, IfSome, IsTrue, None, Some, false};
ghost use Rattle.pipe_aggs.specs.Faults.{first_fault};
ghost use Rattle.pipe_aggs.specs.QueryTrees.{query_tree};
ghost use Rattle.pipe_columns.specs.Causes.{Rose};
ghost use Rattle.pipe_csv.specs.declared.csv_error.CsvError.TheVariants as csv_error;
ghost use Rattle.pipe_io.specs.Tried.{TriedFront};
ghost use Rattle.summary_words.specs.Asked.{adds, asked, files_asked, is_adding, is_refused, shows};
ghost use Rattle.summary_answer.specs.Faults.{IsCaused};
ghost use Rattle.summary_answer.specs.Headline.{HasAdded, HasBegun, IsBegun, IsDone};
ghost use Rattle.summary_answer.specs.Inside.{EndsRefused, HasPrinted, LeavesOutput};
ghost use Rattle.summary_answer.specs.Opened.{opened};
ghost use Rattle.summary_answer.specs.declared.fault.SummaryFault.TheVariants as fault;

use crate::answer::{add_to, show_of};
use crate::fault::{SummaryFault, ask_fault};
use narrow_columns::chosen_schema;
use pipe_aggs::{CheckError, CheckedQuery, Query};
use pipe_columns::Text;
use pipe_io::{InputFiles, Output};
use pipe_spill::SpillStore;
use std::alloc::{AllocError, Global};
use std::hash::RandomState;
use std::thread::Threads;
use summary_words::{AddQuestion, Request, read_request};

/// A query without fault, checked. Its tables hash under keys.
fn checked_of<'a>(
    alloc: Global,
    query: &'a Query,
    hash_keys: Option<RandomState>,
) -> Result<CheckedQuery<'a>, AllocError>
    requires { first_fault query.now ≡ None }
    ensures { IfOk result (λ c. c ≡ query.now) }
{
    match query.check(alloc) {
        Ok(mut checked) => {
            checked.hash_under(hash_keys);
            Ok(checked)
        }
        Err(CheckError::Memory) => Err(AllocError),
        Err(CheckError::Fault(_)) => unreachable!(),
    }
}

/// Adds the files of a question to the summary in a store.
fn answer_add<S: SpillStore + Drop, I: InputFiles, H: Threads + Sync>(
    rt: &H,
    alloc: Global,
    threads: usize,
    hash_keys: Option<RandomState>,
    question: AddQuestion,
    store: S,
    input: &mut I,
) -> (Option<SummaryFault>, S)
    requires threads { 0 < threads }
    requires faultless { first_fault question.query ≡ None }
    requires unordered { (query_tree question.query).keeps_order ≡ false }
    ensures added { result.0 ≡ None → HasAdded (query_tree question.query) question.files.items
        (I.told input.old) (S.told store) (S.held store) (S.told result.1) [] }
    ensures cause { IfSome result.0 (λ f.
        IsCaused f (adds (query_tree question.query) question.files.items)
        (opened (S.told store) (S.held store)) (I.told input.old)) }
    ensures kept { IfSome result.0 (λ _. S.told result.1 ≡ S.told store) }
    ensures sure { S.sure result.1 ≡ S.sure store }
    ensures path { S.path result.1 ≡ S.path store }
    ensures input_failed { result.0 ≡ Some (fault.Read csv_error.Input)
        → Rose (I.faults input.old) (I.faults input.new) }
    ensures store_failed { result.0 ≡ Some fault.Store → Rose (S.faults store) (S.faults result.1) }
    ensures not_output { result.0 ≡ Some fault.OutputFailed → ⊥ }
    ensures tried { TriedFront (I.tried input.old) (I.tried input.new) question.files.items }
{
    let AddQuestion { query, files } = question;
    let Ok(schema) = chosen_schema(alloc, &[], query.schema.fields()) else {
        return (Some(SummaryFault::Memory), store);
    };
    match checked_of(alloc, &query, hash_keys) {
        Ok(checked) => add_to(rt, alloc, threads, &checked, schema, files, store, input),
        Err(AllocError) => (Some(SummaryFault::Memory), store),
    }
}

/// Shows the answer of a query over the summary in a store.
fn answer_show<S: SpillStore + Drop, O: Output>(
    alloc: Global,
    hash_keys: Option<RandomState>,
    query: Query,
    store: S,
    output: &mut O,
) -> (Option<SummaryFault>, S)
    requires faultless { first_fault query ≡ None }
    requires unordered { (query_tree query).keeps_order ≡ false }
    ensures printed { result.0 ≡ None → HasPrinted (query_tree query) (S.told store) (S.held store)
        (O.told output.old) (O.told output.new) }
    ensures output { IfSome result.0 (λ f. LeavesOutput f (output.new ≡ output.old)
        (HasBegun (query_tree query) (S.told store) (S.held store) (O.told output.old)
        (O.told output.new))) }
    ensures cause { IfSome result.0 (λ f. IsCaused f (shows (query_tree query))
        (opened (S.told store) (S.held store)) None) }
    ensures output_failed { result.0 ≡ Some fault.OutputFailed
        → Rose (O.faults output.old) (O.faults output.new) }
    ensures store_failed { result.0 ≡ Some fault.Store → Rose (S.faults store) (S.faults result.1) }
    ensures not_read { result.0 ≡ Some (fault.Read csv_error.Input) → ⊥ }
    ensures told { S.told result.1 ≡ S.told store }
    ensures sure { S.sure result.1 ≡ S.sure store }
    ensures path { S.path result.1 ≡ S.path store }
{
    match checked_of(alloc, &query, hash_keys) {
        Ok(checked) => show_of(alloc, &checked, store, output),
        Err(AllocError) => (Some(SummaryFault::Memory), store),
    }
}

/// Reads what words ask for, and answers it over the store of a summary, which is given back.
pub(crate) fn answer_store<S: SpillStore + Drop, I: InputFiles, O: Output, H: Threads + Sync>(
    rt: &H,
    alloc: Global,
    threads: usize,
    hash_keys: Option<RandomState>,
    words: &[Text],
    store: S,
    input: &mut I,
    output: &mut O,
) -> (Option<SummaryFault>, S)
    requires threads { 0 < threads }
    ensures done { result.0 ≡ None → IsDone (asked words.now) (I.told input.old) (S.told store)
        (S.held store) (S.told result.1) (O.told output.old) (O.told output.new) }
    ensures cause { IfSome result.0 (λ f. IsCaused f (asked words.now)
        (opened (S.told store) (S.held store)) (I.told input.old)) }
    ensures output { IfSome result.0 (λ f. LeavesOutput f (output.new ≡ output.old)
        (IsBegun (asked words.now) (opened (S.told store) (S.held store)) (O.told output.old)
        (O.told output.new))) }
    ensures kept { IfSome result.0 (λ _. S.told result.1 ≡ S.told store) }
    ensures sure { S.sure result.1 ≡ S.sure store }
    ensures path { S.path result.1 ≡ S.path store }
    ensures idle { IsTrue (is_refused (asked words.now)) → result.1 ≡ store }
    ensures input_failed { result.0 ≡ Some (fault.Read csv_error.Input)
        → Rose (I.faults input.old) (I.faults input.new) }
    ensures output_failed { result.0 ≡ Some fault.OutputFailed
        → Rose (O.faults output.old) (O.faults output.new) }
    ensures store_failed { result.0 ≡ Some fault.Store → Rose (S.faults store) (S.faults result.1) }
    ensures tried { TriedFront (I.tried input.old) (I.tried input.new)
        (files_asked (asked words.now)) }
    ensures unread { is_adding (asked words.now) ≡ false → input.new ≡ input.old }
    ensures refused { EndsRefused (asked words.now) result.0 }
{
    match read_request(alloc, words) {
        Ok(Request::Add(question)) => {
            answer_add(rt, alloc, threads, hash_keys, question, store, input)
        }
        Ok(Request::Show(query)) => answer_show(alloc, hash_keys, query, store, output),
        Err(error) => (Some(ask_fault(error)), store),
    }
}
