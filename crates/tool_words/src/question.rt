//! How what words ask for is read.

ghost use Rattle.std.specs.Prelude.{◌≡◌, IfErr, IfOk, IfSome, None, Ok, OnOk, true};
ghost use Rattle.pipe_aggs.specs.Faults.{first_fault};
ghost use Rattle.pipe_aggs.specs.QueryTrees.{query_tree};
ghost use Rattle.pipe_model.specs.Output.{key_types};
ghost use Rattle.pipe_words.specs.Plans.{CanRun, plan_seen};
ghost use Rattle.tool_made.specs.MadeQuery.{made_tree};
ghost use Rattle.tool_query.specs.QueryWord.{word_query};
ghost use Rattle.tool_words.specs.Asked.{asked, asks_from, asks_of, does_keep, IsRefusedFor, query_or, run_query};
ghost use Rattle.tool_words.specs.Reading.{IsNoQuery};
ghost use Rattle.tool_words.specs.Requests.{IsOfRows, request_plan, request_query, requested};

use crate::refusal::{AskError, Refusal};
use crate::request::{MadeQuestion, Question, Request};
use pipe_aggs::{CheckError, Query};
use pipe_columns::{DataType, Text};
use pipe_exprs::is_integer;
use pipe_plan::SinkKind;
use pipe_words::{Plan, read_words};
use std::alloc::{AllocError, Global};
use tool_made::{Made, made_query};
use tool_query::{QueryError, query_of_word};

/// Whether a sink keeps keys of these types.
fn does_keep(sink: SinkKind, types: &[DataType]) -> bool
    ensures { result ≡ does_keep sink types.now }
{
    match sink {
        SinkKind::Generic => true,
        SinkKind::Primitive => types.len() == 1 && is_integer(types[0]),
        SinkKind::Text => types.len() == 1 && types[0] == DataType::String,
    }
}

/// The query without fault that a word is.
fn word_query(alloc: Global, word: &Text) -> Result<Query, AskError>
    ensures query { IfOk result (λ q. query_or (word_query word.now) ≡ Ok (query_tree q)) }
    ensures faultless { IfOk result (λ q. first_fault q ≡ None) }
    ensures cause { IfErr result (λ e. IsNoQuery e (query_or (word_query word.now))) }
{
    match query_of_word(alloc, word) {
        Ok(query) => Ok(query),
        Err(QueryError::Refused(why)) => Err(AskError::Refused(Refusal::NoQuery(why))),
        Err(QueryError::Memory) => Err(AskError::Memory),
    }
}

/// The query of a plan, without fault: over generated rows the one that they are asked, and else that of
/// its first word.
fn run_query(alloc: Global, plan: &Plan) -> Result<Query, AskError>
    ensures query { IfOk result (λ q. run_query plan.now.generate plan.now.words.items
        ≡ Ok (query_tree q)) }
    ensures faultless { IfOk result (λ q. first_fault q ≡ None) }
    ensures made { IfOk result (λ q. IfSome plan.now.generate (λ _. query_tree q ≡ made_tree)) }
    ensures cause { IfErr result
        (λ e. IsNoQuery e (run_query plan.now.generate plan.now.words.items)) }
{
    if plan.generate.is_some() {
        return match made_query(alloc) {
            Ok(query) => Ok(query),
            Err(AllocError) => Err(AskError::Memory),
        };
    }
    if plan.words.is_empty() {
        return Err(AskError::Refused(Refusal::Words));
    }
    word_query(alloc, &plan.words[0])
}

/// Tests that the sink of a plan keeps the keys of a query without fault.
fn check_sink(alloc: Global, plan: &Plan, query: &Query) -> Result<(), AskError>
    requires faultless { first_fault query.now ≡ None }
    ensures suited { OnOk result
        (does_keep plan.now.limits.sink (key_types (query_tree query.now)) ≡ true) }
    ensures asks { OnOk result (asks_of (plan_seen plan.now) (Ok (query_tree query.now))
        ≡ asks_from plan.now.generate (plan_seen plan.now) (query_tree query.now)) }
    ensures cause { IfErr result
        (λ e. IsRefusedFor e (asks_of (plan_seen plan.now) (Ok (query_tree query.now)))) }
{
    let checked = match query.check(alloc) {
        Ok(checked) => checked,
        Err(CheckError::Fault(_)) => unreachable!(),
        Err(CheckError::Memory) => return Err(AskError::Memory),
    };
    if does_keep(plan.limits.sink, checked.key_types()) {
        Ok(())
    } else {
        Err(AskError::Refused(Refusal::UnfitSink))
    }
}

/// What is asked by a plan of its query.
fn request_of(plan: Plan, query: Query) -> Request
    requires runs { CanRun (plan_seen plan) }
    requires made { IfSome plan.generate (λ _. query_tree query ≡ made_tree) }
    ensures asks { requested result ≡ asks_from plan.generate (plan_seen plan) (query_tree query) }
    ensures plan { request_plan result ≡ plan }
    ensures query { request_query result ≡ query }
    ensures rows { IsOfRows result }
{
    match plan.generate {
        None => Request::Answer(Question { plan, query }),
        Some(seed) => {
            let rows = Made {
                seed,
                rows: plan.rows.unwrap_or(0) as u32,
                chunk: plan.chunk,
            };
            Request::Lines(MadeQuestion { plan, query, rows })
        }
    }
}

/// What the words of a command ask for, or why they are refused: the words come first, then the query
/// and its faults, then the sink.
pub fn read_request(alloc: Global, words: &[Text]) -> Result<Request, AskError>
    ensures asks { IfOk result (λ r. asked words.now ≡ requested r) }
    ensures faultless { IfOk result (λ r. first_fault (request_query r) ≡ None) }
    ensures suited { IfOk result (λ r. does_keep (request_plan r).limits.sink
        (key_types (query_tree (request_query r))) ≡ true) }
    ensures runs { IfOk result (λ r. CanRun (plan_seen (request_plan r))) }
    ensures rows { IfOk result (λ r. IsOfRows r) }
    ensures cause { IfErr result (λ e. IsRefusedFor e (asked words.now)) }
{
    let plan = match read_words(alloc, words) {
        Ok(Some(plan)) => plan,
        Ok(None) => return Err(AskError::Refused(Refusal::Words)),
        Err(_) => return Err(AskError::Memory),
    };
    let query = run_query(alloc, &plan)?;
    check_sink(alloc, &plan, &query)?;
    Ok(request_of(plan, query))
}
