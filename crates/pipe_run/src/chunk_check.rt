//! Whether chunks can be fed.

ghost use Rattle.std.specs.Prelude.{◌≡◌, ◌+◌, ◌<◌, ◌≤◌, ◌^◌, ◌++◌, ℕ, All, IfErr, IfNone, IfOk, IfSome, OnOk, map};
ghost use Rattle.pipe_aggs.specs.CheckedQuery.{IsSound};
ghost use Rattle.pipe_aggs.specs.QueryTrees.{query_tree};
ghost use Rattle.pipe_columns.specs.Frame.{HoldsTypes};
ghost use Rattle.pipe_model.specs.Rows.{AreChunksOf, total_height};
ghost use Rattle.pipe_run.specs.Feeding.{IsBadChunks};
ghost use Rattle.pipe_run.specs.Refusals.{AllHaveFields, AreMany, IsFirstMisfit};
ghost use Rattle.pipe_run.specs.declared.error.PipeError.TheVariants as error;

use crate::error::PipeError;
use pipe_aggs::CheckedQuery;
use pipe_columns::{DataChunk, Schema};
use std::snapshot::Snapshot;

/// The position of the first of some chunks that has other columns than a schema.
pub(crate) fn first_misfit(chunks: &[DataChunk], schema: &Schema) -> Option<usize>
    ensures some { IfSome result (λ i. IsFirstMisfit schema.now chunks.now i) }
    ensures none { IfNone result (AllHaveFields schema.now chunks.now) }
    ensures typed { IfNone result (All (λ c. HoldsTypes c.frame) chunks.now) }
{
    for position in 0..chunks.len() {
        if !chunks[position].frame.fits(schema) {
            return Some(position);
        }
    }
    None
}

/// How many rows there are with those of some chunks, where they are fewer than 2^32.
pub(crate) fn rows_with(rows: u64, chunks: &[DataChunk]) -> Option<u64>
    requires { rows < 2 ^ 32 }
    ensures some { IfSome result (λ n. n ≡ rows + total_height chunks.now) }
    ensures few { IfSome result (λ n. n < 2 ^ 32) }
    ensures none { IfNone result (2 ^ 32 ≤ rows + total_height chunks.now) }
{
    let mut all = rows;
    for chunk in chunks {
        let height = chunk.frame.height() as u64;
        if height >= (1 << 32) - all {
            return None;
        }
        all += height;
    }
    Some(all)
}

/// Whether chunks can be fed behind those taken, and then how many rows there are in all.
pub fn checked_rows(
    query: &CheckedQuery<'_>,
    taken: &[Snapshot<DataChunk>],
    rows: u64,
    chunks: &[DataChunk],
) -> Result<u64, PipeError>
    requires taken { AreChunksOf (query_tree query.now) (map (λ c. c.value) taken.now) }
    requires rows { rows ≡ total_height (map (λ c. c.value) taken.now) }
    ensures rows { IfOk result
        (λ n. n ≡ total_height (map (λ c. c.value) taken.now ++ chunks.now)) }
    ensures chunks { OnOk result (AreChunksOf (query_tree query.now)
        (map (λ c. c.value) taken.now ++ chunks.now)) }
    ensures misfit { IfErr result (λ e. (i : ℕ) → e ≡ error.Schema i
        → IsFirstMisfit query.now.schema (map (λ c. c.value) taken.now ++ chunks.now) i) }
    ensures large { IfErr result (λ e. e ≡ error.TooLarge
        → AllHaveFields query.now.schema (map (λ c. c.value) taken.now ++ chunks.now)
        × AreMany (map (λ c. c.value) taken.now ++ chunks.now)) }
    ensures kinds { IfErr result (λ e. IsBadChunks e) }
    ensures sound { OnOk result (IsSound query.now) }
{
    let query = query.query();
    if let Some(position) = first_misfit(chunks, &query.schema) {
        let chunk = taken.len() + position;
        return Err(PipeError::Schema { chunk });
    }
    let Some(all) = rows_with(rows, chunks) else {
        return Err(PipeError::TooLarge);
    };
    if chunks.len() >= (1 << 32) - taken.len() {
        return Err(PipeError::TooLarge);
    }
    Ok(all)
}
