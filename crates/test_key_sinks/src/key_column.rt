//! The column of a chunk's keys.

ghost use Rattle.std.specs.Prelude.{◌≡◌, ◌∷◌, [], IfOk, IfSome, map};
ghost use Rattle.pipe_aggs.specs.QueryTrees.{query_tree};
ghost use Rattle.pipe_columns.specs.Frame.{FitsSchema};
ghost use Rattle.pipe_sinks.specs.Runs.{IsKeyColumn};

use pipe_aggs::CheckedQuery;
use pipe_columns::{AnyValue, Column, DataChunk, DataType, Text};
use pipe_inputs::ChunkRows;
use std::alloc::{AllocError, Global};

/// The value of a key, where it has one alone.
fn sole(key: Vec<AnyValue>) -> Option<AnyValue>
    ensures { IfSome result (λ v. key.items ≡ v ∷ []) }
{
    let mut key = key;
    let value = key.pop()?;
    if key.is_empty() { Some(value) } else { None }
}

/// The values of the keys of rows, where each has one.
fn sole_keys(alloc: Global, rows: &ChunkRows<'_>) -> Result<Option<Vec<AnyValue>>, AllocError>
    ensures { IfOk result (λ o. IfSome o
        (λ vs. map (λ v. v ∷ []) vs.items ≡ map (λ r. r.key) rows.now)) }
{
    let mut values = Vec::new(alloc);
    for row in 0..rows.len() {
        let Some(value) = sole(rows.own_key(alloc, row)?) else {
            return Ok(None);
        };
        values.push(value)?;
    }
    Ok(Some(values))
}

/// The keys of a chunk's rows as a column, under a flag: none where they aren't of a type.
pub(crate) fn key_column(
    alloc: Global,
    query: &CheckedQuery<'_>,
    dtype: DataType,
    sorted: bool,
    chunk: &DataChunk,
) -> Result<Option<Column>, AllocError>
    requires { FitsSchema query.now.schema chunk.now.frame }
    ensures { IfOk result (λ o. IfSome o (λ c. IsKeyColumn (query_tree query.now) chunk.now c)) }
{
    let rows = ChunkRows::new(alloc, query, chunk.chunk_index, chunk)?;
    match sole_keys(alloc, &rows)? {
        Some(values) => Ok(Column::new(Text::new(alloc, "keys")?, dtype, sorted, values)),
        None => Ok(None),
    }
}
