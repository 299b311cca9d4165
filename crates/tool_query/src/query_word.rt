//! How the query of a word is read.

ghost use Rattle.std.specs.Prelude.{◌≡◌, IfErr, IfOk, None, Ok, OnOk, Some};
ghost use Rattle.serde_json.specs.View.{view};
ghost use Rattle.pipe_aggs.specs.Faults.{first_fault};
ghost use Rattle.pipe_aggs.specs.QueryTrees.{query_tree};
ghost use Rattle.tool_query.specs.QueryWord.{IsNoQuery, json_query, word_query};
ghost use Rattle.tool_query.specs.Reading.{sound_query};

use crate::no_query::{NoQuery, QueryError};
use pipe_aggs::{CheckError, Query};
use pipe_columns::Text;
use pipe_query::query_of;
use serde_json::Value;
use std::alloc::Global;

/// The query that a JSON value is, with or without faults.
#[tactic(auto, using(crate::proofs::QueryFacts::nodes_sound))]
fn json_query(alloc: Global, json: &Value) -> Result<Query, QueryError>
    ensures query { IfOk result (λ q. json_query (Some (view json.now)) ≡ sound_query q) }
    ensures cause { IfErr result (λ e. IsNoQuery e (json_query (Some (view json.now)))) }
{
    match query_of(alloc, json) {
        Ok(Some(query)) => Ok(query),
        Ok(None) => Err(QueryError::Refused(NoQuery::NotAQuery)),
        Err(_) => Err(QueryError::Memory),
    }
}

/// The query that a word is, with or without faults.
fn written_query(alloc: Global, word: &Text) -> Result<Query, QueryError>
    ensures query { IfOk result (λ q. word_query word.now ≡ sound_query q) }
    ensures cause { IfErr result (λ e. IsNoQuery e (word_query word.now)) }
{
    match Value::from_str(alloc, word.as_str()) {
        Ok(json) => json_query(alloc, &json),
        Err(error) if error.is_memory() => Err(QueryError::Memory),
        Err(_) => Err(QueryError::Refused(NoQuery::NotJson)),
    }
}

/// Tests that a query has no fault.
fn check_query(alloc: Global, query: &Query) -> Result<(), QueryError>
    ensures faultless { OnOk result (first_fault query.now ≡ None) }
    ensures cause { IfErr result (λ e. IsNoQuery e (sound_query query.now)) }
{
    match query.check(alloc) {
        Ok(_) => Ok(()),
        Err(CheckError::Fault(fault)) => Err(QueryError::Refused(NoQuery::Faulty(fault))),
        Err(CheckError::Memory) => Err(QueryError::Memory),
    }
}

/// The query without fault that a word is as JSON.
pub fn query_of_word(alloc: Global, word: &Text) -> Result<Query, QueryError>
    ensures query { IfOk result (λ q. word_query word.now ≡ Ok (query_tree q)) }
    ensures faultless { IfOk result (λ q. first_fault q ≡ None) }
    ensures cause { IfErr result (λ e. IsNoQuery e (word_query word.now)) }
{
    let query = written_query(alloc, word)?;
    check_query(alloc, &query)?;
    Ok(query)
}
