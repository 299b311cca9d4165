//! The state of chunks.

ghost use Rattle.std.specs.Prelude.{◌≡◌, ℕ, Err, IfOk, IsErrOf, OnOk};
ghost use Rattle.pipe_aggs.specs.QueryTrees.{query_tree};
ghost use Rattle.pipe_saving.specs.Refusals.{AreTooLarge, CanBeSaved, IsFirstMisfit};
ghost use Rattle.pipe_saving.specs.declared.save_error.SaveError.TheVariants as fault;
ghost use Rattle.pipe_states.specs.Fair.{IsStateOf};
ghost use Rattle.pipe_states.specs.Parts.{part_of, saved};

use crate::chunk_check::check_chunks;
use crate::save_error::SaveError;
use crate::saving::Saving;
use pipe_aggs::CheckedQuery;
use pipe_columns::DataChunk;
use pipe_states::StateFile;
use std::alloc::{AllocError, Global};

/// The state of chunks that can be saved.
fn save_all<'a>(
    alloc: Global,
    query: &'a CheckedQuery<'a>,
    first: u32,
    chunks: &[DataChunk],
) -> Result<StateFile, AllocError>
    requires { CanBeSaved query.now.schema first chunks.now }
    ensures state { IfOk result (λ f. let q = query_tree query.now in
        f ≡ saved q (part_of q first chunks.now)) }
    ensures of_query { IfOk result (IsStateOf (query_tree query.now)) }
{
    let saving = Saving::new(alloc, query, first)?;
    saving.feed_all(alloc, chunks)?.finish(alloc)
}

/// The state of chunks, of which the first has a position and each other one the next. The query's
/// slice and its order aren't read.
pub fn save<'a>(
    alloc: Global,
    query: &'a CheckedQuery<'a>,
    first: u32,
    chunks: &[DataChunk],
) -> Result<StateFile, SaveError>
    ensures state { IfOk result (λ f. let q = query_tree query.now in
        f ≡ saved q (part_of q first chunks.now)) }
    ensures of_query { IfOk result (IsStateOf (query_tree query.now)) }
    ensures ok { OnOk result (CanBeSaved query.now.schema first chunks.now) }
    ensures misfit { (i : ℕ) → result ≡ Err (fault.Schema i)
        → IsFirstMisfit query.now.schema chunks.now i }
    ensures large { IsErrOf result fault.TooLarge
        → AreTooLarge query.now.schema first chunks.now }
    ensures memory { IsErrOf result fault.Memory
        → CanBeSaved query.now.schema first chunks.now }
{
    check_chunks(&query.query().schema, first, chunks)?;
    Ok(save_all(alloc, query, first, chunks)?)
}
