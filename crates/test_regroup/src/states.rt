//! States of one chunk each.

ghost use Rattle.std.specs.Prelude.{◌≡◌, ◌+◌, IfOk};
ghost use Rattle.pipe_aggs.specs.QueryTrees.{query_tree};
ghost use Rattle.pipe_states.specs.Fair.{IsStateOf};

use pipe_aggs::CheckedQuery;
use pipe_columns::DataChunk;
use pipe_saving::save;
use pipe_states::StateFile;
use std::alloc::Global;
use std::test::Fail;

/// The state of a chunk at a position.
pub(crate) fn state_of(
    alloc: Global,
    query: &CheckedQuery<'_>,
    first: u32,
    chunk: DataChunk,
) -> Result<StateFile, Fail>
    ensures of_query { IfOk result (IsStateOf (query_tree query.now)) }
    ensures begin { IfOk result (λ s. s.first ≡ first) }
    ensures end { IfOk result (λ s. s.end ≡ first + 1) }
{
    match save(alloc, query, first, &[chunk]) {
        Ok(file) => Ok(file),
        Err(_) => Err("save wants memory".into()),
    }
}
