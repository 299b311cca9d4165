//! How what words ask for is read.

ghost use Rattle.std.specs.Prelude.{◌≡◌, IfErr, IfOk, None, Ok, Some, option_map};
ghost use Rattle.pipe_aggs.specs.Faults.{first_fault};
ghost use Rattle.pipe_aggs.specs.QueryTrees.{query_tree};
ghost use Rattle.pipe_states.specs.Together.{AreKept};
ghost use Rattle.tool_query.specs.QueryWord.{word_query};
ghost use Rattle.rollup_words.specs.Asked.{asked, asked_by, IsRefusedFor, rolls, saves, whole_query};
ghost use Rattle.rollup_words.specs.Reading.{IsNoWhole};
ghost use Rattle.rollup_words.specs.Requests.{HasKept, request_query, requested};
ghost use Rattle.rollup_words.specs.Said.{position_in, roll, save};

use crate::keys::kept_positions;
use crate::refusal::{AskError, Refusal};
use crate::request::{Request, RollQuestion, SaveQuestion};
use crate::said::{parts, position_in};
use pipe_aggs::Query;
use pipe_columns::Text;
use std::alloc::{AllocError, Global};
use tool_query::{QueryError, query_of_word};

/// The query that a word is, which gives all its groups in the order of their keys.
pub fn whole_query(alloc: Global, word: &Text) -> Result<Query, AskError>
    ensures query { IfOk result (λ q. whole_query (word_query word.now) ≡ Ok (query_tree q)) }
    ensures faultless { IfOk result (λ q. first_fault q ≡ None) }
    ensures cause { IfErr result (λ e. IsNoWhole e (whole_query (word_query word.now))) }
{
    let query = match query_of_word(alloc, word) {
        Ok(query) => query,
        Err(QueryError::Refused(why)) => return Err(AskError::Refused(Refusal::Query(why))),
        Err(QueryError::Memory) => return Err(AskError::Memory),
    };
    if query.slice.is_some() || query.maintain_order {
        return Err(AskError::Refused(Refusal::Sliced));
    }
    Ok(query)
}

/// Names, copied.
fn copied(alloc: Global, names: &[Text]) -> Result<Vec<Text>, AllocError>
    ensures { IfOk result (λ copies. copies.items ≡ names.now) }
{
    let mut copies = Vec::with_capacity(alloc, names.len())?;
    for name in names {
        copies.push(name.try_clone(alloc)?)?;
    }
    Ok(copies)
}

/// What is asked for by the word of a query, that of a position, and the names of files.
fn read_save(
    alloc: Global,
    query: &Text,
    position: &Text,
    files: &[Text],
) -> Result<SaveQuestion, AskError>
    ensures asks { IfOk result (λ s.
        asked_by (option_map (λ first. save query.now first files.now) (position_in position.now))
        ≡ saves (query_tree s.query) s.first s.files.items) }
    ensures faultless { IfOk result (λ s. first_fault s.query ≡ None) }
    ensures cause { IfErr result (λ e. IsRefusedFor e
        (asked_by
        (option_map (λ first. save query.now first files.now) (position_in position.now)))) }
{
    let Some(first) = position_in(position.as_str()) else {
        return Err(AskError::Refused(Refusal::Words));
    };
    let query = whole_query(alloc, query)?;
    match copied(alloc, files) {
        Ok(files) => Ok(SaveQuestion {
            query,
            first,
            files,
        }),
        Err(AllocError) => Err(AskError::Memory),
    }
}

/// What is asked for by the word of a query, that of keys, and the names of files.
fn read_roll(
    alloc: Global,
    query: &Text,
    keys: &Text,
    files: &[Text],
) -> Result<RollQuestion, AskError>
    ensures asks { IfOk result (λ r. asked_by (Some (roll query.now keys.now files.now))
        ≡ rolls (query_tree r.query) r.keep.items r.files.items) }
    ensures faultless { IfOk result (λ r. first_fault r.query ≡ None) }
    ensures kept { IfOk result (λ r. AreKept (query_tree r.query) r.keep.items) }
    ensures cause { IfErr result (λ e. IsRefusedFor e
        (asked_by (Some (roll query.now keys.now files.now)))) }
{
    let query = whole_query(alloc, query)?;
    let keep = kept_positions(alloc, &query, keys)?;
    match copied(alloc, files) {
        Ok(files) => Ok(RollQuestion { query, keep, files }),
        Err(AllocError) => Err(AskError::Memory),
    }
}

/// What the words of a command ask for, or why they are refused: the words come first, then the
/// query and its faults, then the keys.
pub fn read_request(alloc: Global, words: &[Text]) -> Result<Request, AskError>
    ensures asks { IfOk result (λ r. asked words.now ≡ requested r) }
    ensures faultless { IfOk result (λ r. first_fault (request_query r) ≡ None) }
    ensures kept { IfOk result (λ r. HasKept r) }
    ensures cause { IfErr result (λ e. IsRefusedFor e (asked words.now)) }
{
    let Some((mode, query, third, files)) = parts(words) else {
        return Err(AskError::Refused(Refusal::Words));
    };
    match mode.as_str() {
        "save" => Ok(Request::Save(read_save(alloc, query, third, files)?)),
        "roll" => Ok(Request::Roll(read_roll(alloc, query, third, files)?)),
        _ => Err(AskError::Refused(Refusal::Words)),
    }
}
