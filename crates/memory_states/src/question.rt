//! What a call asks: its query, and its keys.

ghost use Rattle.std.specs.Prelude.{◌≡◌, IfErr, IfOk, None, Ok, Some};
ghost use Rattle.memory_answer.specs.Answers.{bytes_query};
ghost use Rattle.memory_states.specs.Calls.{bytes_kept};
ghost use Rattle.pipe_aggs.specs.Faults.{first_fault};
ghost use Rattle.pipe_aggs.specs.QueryTrees.{query_tree};
ghost use Rattle.pipe_states.specs.Together.{AreKept};
ghost use Rattle.rollup_words.specs.Asked.{whole_query};
ghost use Rattle.rollup_words.specs.Reading.{AreNoKeys, IsNoWhole};

use pipe_aggs::Query;
use pipe_columns::Text;
use rollup_words::{AskError, Refusal, kept_positions, whole_query};
use std::alloc::Global;
use tool_query::NoQuery;

/// The query that bytes are, which gives all its groups in the order of their keys.
pub(crate) fn query_of(alloc: Global, bytes: &[u8]) -> Result<Query, AskError>
    ensures query { IfOk result (λ q. whole_query (bytes_query bytes.now) ≡ Ok (query_tree q)) }
    ensures faultless { IfOk result (λ q. first_fault q ≡ None) }
    ensures cause { IfErr result (λ e. IsNoWhole e (whole_query (bytes_query bytes.now))) }
{
    let Ok(word) = str::from_utf8(bytes) else {
        return Err(AskError::Refused(Refusal::Query(NoQuery::NotJson)));
    };
    let Ok(word) = Text::new(alloc, word) else {
        return Err(AskError::Memory);
    };
    whole_query(alloc, &word)
}

/// The positions of the key columns of a query that bytes name.
pub(crate) fn keys_of(alloc: Global, query: &Query, bytes: &[u8]) -> Result<Vec<usize>, AskError>
    requires { first_fault query.now ≡ None }
    ensures kept { IfOk result (λ v. bytes_kept (query_tree query.now) bytes.now ≡ Some v.items) }
    ensures can { IfOk result (λ v. AreKept (query_tree query.now) v.items) }
    ensures cause { IfErr result
        (λ e. AreNoKeys e (bytes_kept (query_tree query.now) bytes.now)) }
{
    let Ok(word) = str::from_utf8(bytes) else {
        return Err(AskError::Refused(Refusal::Keys));
    };
    let Ok(word) = Text::new(alloc, word) else {
        return Err(AskError::Memory);
    };
    kept_positions(alloc, query, &word)
}
