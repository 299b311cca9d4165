//! How what words ask for is read.

ghost use Rattle.std.specs.Prelude.{◌≡◌, IfErr, IfOk, None, Ok, Some, false};
ghost use Rattle.pipe_aggs.specs.Faults.{first_fault};
ghost use Rattle.pipe_aggs.specs.QueryTrees.{query_tree};
ghost use Rattle.tool_query.specs.QueryWord.{word_query};
ghost use Rattle.summary_words.specs.Asked.{adds, asked, asked_by, IsRefusedFor, shows, unordered_query};
ghost use Rattle.summary_words.specs.Reading.{IsNoUnordered, request_query, requested};
ghost use Rattle.summary_words.specs.Said.{add, show};

use crate::refusal::{AskError, Refusal};
use crate::request::{AddQuestion, Request};
use crate::said::parts;
use pipe_aggs::Query;
use pipe_columns::Text;
use std::alloc::{AllocError, Global};
use tool_query::{QueryError, query_of_word};

/// The query that a word is, which doesn't keep the order of rows.
fn unordered_query(alloc: Global, word: &Text) -> Result<Query, AskError>
    ensures query { IfOk result (λ q. unordered_query (word_query word.now) ≡ Ok (query_tree q)) }
    ensures faultless { IfOk result (λ q. first_fault q ≡ None) }
    ensures unordered { IfOk result (λ q. (query_tree q).keeps_order ≡ false) }
    ensures cause { IfErr result (λ e. IsNoUnordered e (unordered_query (word_query word.now))) }
{
    let query = match query_of_word(alloc, word) {
        Ok(query) => query,
        Err(QueryError::Refused(why)) => return Err(AskError::Refused(Refusal::Query(why))),
        Err(QueryError::Memory) => return Err(AskError::Memory),
    };
    if query.maintain_order {
        return Err(AskError::Refused(Refusal::Ordered));
    }
    Ok(query)
}

/// Names, copied.
fn copied(alloc: Global, names: &[Text]) -> Result<Vec<Text>, AllocError>
    ensures { IfOk result (λ copies. copies.items ≡ names.now) }
{
    let mut copies = Vec::with_capacity(alloc, names.len())?;
    for name in names {
        copies.push(name.try_clone(alloc)?)?;
    }
    Ok(copies)
}

/// What is asked for by the word of a query and the names of files.
fn read_add(alloc: Global, query: &Text, files: &[Text]) -> Result<AddQuestion, AskError>
    ensures asks { IfOk result (λ a. asked_by (Some (add query.now files.now))
        ≡ adds (query_tree a.query) a.files.items) }
    ensures faultless { IfOk result (λ a. first_fault a.query ≡ None) }
    ensures unordered { IfOk result (λ a. (query_tree a.query).keeps_order ≡ false) }
    ensures cause { IfErr result (λ e. IsRefusedFor e (asked_by (Some (add query.now files.now)))) }
{
    let query = unordered_query(alloc, query)?;
    match copied(alloc, files) {
        Ok(files) => Ok(AddQuestion { query, files }),
        Err(AllocError) => Err(AskError::Memory),
    }
}

/// What the words of a command ask for, or why they are refused: the words come first, then the query
/// and its faults, then whether it keeps the order of rows.
pub fn read_request(alloc: Global, words: &[Text]) -> Result<Request, AskError>
    ensures asks { IfOk result (λ r. asked words.now ≡ requested r) }
    ensures faultless { IfOk result (λ r. first_fault (request_query r) ≡ None) }
    ensures unordered { IfOk result (λ r. (query_tree (request_query r)).keeps_order ≡ false) }
    ensures cause { IfErr result (λ e. IsRefusedFor e (asked words.now)) }
{
    let Some((mode, query, files)) = parts(words) else {
        return Err(AskError::Refused(Refusal::Words));
    };
    match (mode.as_str(), files.is_empty()) {
        ("add", false) => Ok(Request::Add(read_add(alloc, query, files)?)),
        ("show", true) => Ok(Request::Show(unordered_query(alloc, query)?)),
        _ => Err(AskError::Refused(Refusal::Words)),
    }
}
