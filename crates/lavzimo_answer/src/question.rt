//! The query of a question, and what is shown of its answer.

ghost use Rattle.std.specs.Prelude.{◌≡◌, ◌⊎◌, ◌≤◌, ◌++◌, ◌∷◌, [], IfErr, IfOk, None, Ok};
ghost use Rattle.pipe_aggs.specs.Faults.{first_fault};
ghost use Rattle.pipe_aggs.specs.QueryTrees.{query_tree};
ghost use Rattle.pipe_columns.specs.Causes.{Rose};
ghost use Rattle.pipe_io.specs.Files.{IsWhole};
ghost use Rattle.pipe_io.specs.Tried.{TriedFront};
ghost use Rattle.tool_shell.specs.declared.status.TheConstants.{INPUT_FAILED};
ghost use Rattle.lavzimo_shown.specs.Showing.{shown_of};
ghost use Rattle.lavzimo_words.specs.Askable.{IsAskable, MayBeAsked};
ghost use Rattle.lavzimo_words.specs.Asked.{columns_seen, of_columns, of_file, question_seen};
ghost use Rattle.lavzimo_words.specs.AskedQuery.{query_of_words};
ghost use Rattle.lavzimo_answer.specs.Asking.{IsQueryOf, file_query, query_files};
ghost use Rattle.lavzimo_answer.specs.Faults.{IsUnread, status_of};
ghost use Rattle.lavzimo_answer.specs.Reading.{IsAskedFault, IsNoQueryOf, TellsNoQuery};

use crate::fault::Fault;
use lavzimo_shown::Showing;
use lavzimo_words::{Columns, Question, query_of};
use pipe_aggs::{CheckError, Query};
use pipe_columns::Text;
use pipe_io::{FileEnd, InputFiles, read_file};
use std::alloc::{AllocError, Global};
use tool_query::{NoQuery, QueryError, query_of_word};

/// A query, and what is shown of its answer.
#[derive(Drop)]
pub(crate) struct Ready {
    pub(crate) query: Query,
    pub(crate) showing: Showing,
}

/// The query of columns, and what is shown of them.
fn ask_columns(alloc: Global, columns: &Columns) -> Result<Ready, AllocError>
    requires askable { IsAskable (columns_seen columns.now) }
    ensures query { IfOk result
        (λ r. query_tree r.query ≡ query_of_words (columns_seen columns.now)) }
    ensures faultless { IfOk result (λ r. first_fault r.query ≡ None) }
    ensures showing { IfOk result (λ r. r.showing
        ≡ shown_of (of_columns (columns_seen columns.now)) (query_tree r.query)) }
{
    let query = query_of(alloc, columns)?;
    let showing = Showing::of_columns(alloc, columns)?;
    Ok(Ready { query, showing })
}

/// The query that the text of a file is.
fn query_in(alloc: Global, text: Vec<u8>) -> Result<Query, QueryError>
    ensures query { IfOk result (λ q. file_query text.items ≡ Ok (query_tree q)) }
    ensures faultless { IfOk result (λ q. first_fault q ≡ None) }
    ensures cause { IfErr result (λ e. IsNoQueryOf e text.items) }
{
    match Text::from_bytes(text) {
        Some(word) => query_of_word(alloc, &word),
        None => Err(QueryError::Refused(NoQuery::NotJson)),
    }
}

/// All of the answer of a query.
fn show_all(alloc: Global, query: Query, name: &Text) -> Result<Ready, AllocError>
    requires faultless { first_fault query ≡ None }
    ensures query { IfOk result (λ r. r.query ≡ query) }
    ensures showing { IfOk result
        (λ r. r.showing ≡ shown_of (of_file name.now) (query_tree query)) }
{
    let showing = match query.check(alloc) {
        Ok(checked) => Showing::whole(alloc, query.keys.len(), checked.output_schema())?,
        Err(CheckError::Memory) => return Err(AllocError),
        Err(CheckError::Fault(_)) => unreachable!(),
    };
    Ok(Ready { query, showing })
}

/// Why the file of a query isn't read.
fn unread(alloc: Global, name: &Text, end: FileEnd) -> Fault
    ensures { (result ≡ Fault.Unread name.now end) ⊎ (result ≡ Fault.Memory) }
{
    match name.try_clone(alloc) {
        Ok(name) => Fault::Unread { name, end },
        Err(AllocError) => Fault::Memory,
    }
}

/// Why the file of a query has none.
fn no_query(alloc: Global, name: &Text, error: QueryError) -> Fault
    ensures { TellsNoQuery result name.now error }
{
    match error {
        QueryError::Memory => Fault::Memory,
        QueryError::Refused(why) => match name.try_clone(alloc) {
            Ok(name) => Fault::NoQuery { name, why },
            Err(AllocError) => Fault::Memory,
        },
    }
}

/// The query of a file, and what is shown of its answer.
fn ask_file<I: InputFiles>(alloc: Global, name: &Text, input: &mut I) -> Result<Ready, Fault>
    ensures query { IfOk result (λ r. IsQueryOf (of_file name.now) (I.told input.old)
        (query_tree r.query)) }
    ensures faultless { IfOk result (λ r. first_fault r.query ≡ None) }
    ensures showing { IfOk result
        (λ r. r.showing ≡ shown_of (of_file name.now) (query_tree r.query)) }
    ensures cause { IfErr result (λ f. IsAskedFault f (of_file name.now) (I.told input.old)) }
    ensures failed { IfErr result
        (λ f. status_of f ≡ INPUT_FAILED → Rose (I.faults input.old) (I.faults input.new)) }
    ensures told { I.told input.new ≡ I.told input.old }
    ensures rose { I.faults input.old ≤ I.faults input.new }
    ensures tried { I.tried input.new ≡ I.tried input.old ++ name.now ∷ [] }
{
    let text = match read_file(alloc, input, name) {
        Ok(text) => text,
        Err(end) => return Err(unread(alloc, name, end)),
    };
    let query = match query_in(alloc, text) {
        Ok(query) => query,
        Err(error) => return Err(no_query(alloc, name, error)),
    };
    match show_all(alloc, query, name) {
        Ok(ready) => Ok(ready),
        Err(AllocError) => Err(Fault::Memory),
    }
}

/// The query of a question, and what is shown of its answer.
pub(crate) fn ask_question<I: InputFiles>(
    alloc: Global,
    question: &Question,
    input: &mut I,
) -> Result<Ready, Fault>
    requires askable { MayBeAsked (question_seen question.now) }
    ensures query { IfOk result (λ r. IsQueryOf (question_seen question.now) (I.told input.old)
        (query_tree r.query)) }
    ensures faultless { IfOk result (λ r. first_fault r.query ≡ None) }
    ensures showing { IfOk result
        (λ r. r.showing ≡ shown_of (question_seen question.now) (query_tree r.query)) }
    ensures cause { IfErr result (λ f. IsAskedFault f (question_seen question.now)
        (I.told input.old)) }
    ensures failed { IfErr result
        (λ f. status_of f ≡ INPUT_FAILED → Rose (I.faults input.old) (I.faults input.new)) }
    ensures told { I.told input.new ≡ I.told input.old }
    ensures rose { I.faults input.old ≤ I.faults input.new }
    ensures tried { I.tried input.new
        ≡ I.tried input.old ++ query_files (question_seen question.now) }
{
    match question {
        Question::File(name) => ask_file(alloc, name, input),
        Question::Columns(columns) => match ask_columns(alloc, columns) {
            Ok(ready) => Ok(ready),
            Err(AllocError) => Err(Fault::Memory),
        },
    }
}
