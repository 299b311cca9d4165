//! The query that bytes are.

ghost use Rattle.std.specs.Prelude.{◌≡◌, IfErr, IfOk, None, Ok};
ghost use Rattle.pipe_aggs.specs.Faults.{first_fault};
ghost use Rattle.pipe_aggs.specs.QueryTrees.{query_tree};
ghost use Rattle.memory_answer.specs.Answers.{bytes_query};
ghost use Rattle.memory_answer.specs.Held.{IsOfQuery};

use crate::fault::Fault;
use pipe_aggs::Query;
use pipe_columns::Text;
use std::alloc::Global;
use tool_query::{NoQuery, QueryError, query_of_word};

/// The query without fault that bytes are.
pub(crate) fn query_of_bytes(alloc: Global, bytes: &[u8]) -> Result<Query, Fault>
    ensures query { IfOk result (λ q. bytes_query bytes.now ≡ Ok (query_tree q)) }
    ensures faultless { IfOk result (λ q. first_fault q ≡ None) }
    ensures cause { IfErr result (λ e. IsOfQuery e (bytes_query bytes.now)) }
{
    let Ok(word) = str::from_utf8(bytes) else {
        return Err(Fault::Query(NoQuery::NotJson));
    };
    let Ok(word) = Text::new(alloc, word) else {
        return Err(Fault::Memory);
    };
    match query_of_word(alloc, &word) {
        Ok(query) => Ok(query),
        Err(QueryError::Refused(why)) => Err(Fault::Query(why)),
        Err(QueryError::Memory) => Err(Fault::Memory),
    }
}
