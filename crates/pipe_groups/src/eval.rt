//! The rows of a chunk, of their own, as tables are fed them.

ghost use Rattle.std.specs.Prelude.{◌≡◌, ◌<◌, ◌≤◌, ◌^◌, All, IfOk, length, map};
ghost use Rattle.pipe_columns.specs.Frame.{FitsSchema};
ghost use Rattle.pipe_aggs.specs.QueryTrees.{query_tree};
ghost use Rattle.pipe_inputs.specs.ChunkRows.{row_at};
ghost use Rattle.pipe_model.specs.Output.{key_types};
ghost use Rattle.pipe_model.specs.Rows.{chunk_rows};
ghost use Rattle.pipe_spill.specs.KeyTypes.{AreOfTypes};
ghost use Rattle.pipe_spill.specs.SpillRow.{spilled};

use crate::row_code::encode_row;
use pipe_aggs::CheckedQuery;
use pipe_columns::{DataChunk, DataType};
use pipe_inputs::ChunkRows;
use pipe_spill::{KeyBytes, SpillRow, Values};
use std::alloc::{AllocError, Global};
use std::marker::Model;

/// Makes rows of the chunks of a query. Contracts see it as the query.
#[derive(Drop)]
pub struct Eval<'a> {
    query: &'a CheckedQuery<'a>,
}

impl<'a> Model for Eval<'a> {
    ghost use Rattle.pipe_aggs.specs.declared.query.Query.{Query};

    ghost Value = { Query };

    ghost view = { λ a. a.query.now };
}

/// A row of a chunk, with the code of its key.
fn owned_row(
    alloc: Global,
    rows: &ChunkRows<'_>,
    row: usize,
    types: &[DataType],
) -> Result<SpillRow, AllocError>
    requires there { row < length rows.now }
    requires placed { row < 2 ^ 32 }
    requires typed { AreOfTypes types.now (row_at rows.now row).key }
    ensures { IfOk result (λ r. r ≡ spilled types.now (row_at rows.now row)) }
{
    let mut key = Vec::new(alloc);
    encode_row(&mut key, rows, row, types)?;
    let inputs = rows.own_inputs(alloc, row)?;
    Ok(SpillRow {
        place: rows.place(row),
        key: KeyBytes::new(key),
        values: Values::new(inputs),
    })
}

/// All rows of a chunk, with the codes of their keys.
fn owned_rows(
    alloc: Global,
    rows: &ChunkRows<'_>,
    types: &[DataType],
) -> Result<Vec<SpillRow>, AllocError>
    requires placed { length rows.now ≤ 2 ^ 32 }
    requires typed { All (λ r. AreOfTypes types.now r.key) rows.now }
    ensures { IfOk result (λ owned. owned.items ≡ map (spilled types.now) rows.now) }
{
    let mut owned = Vec::with_capacity(alloc, rows.len())?;
    for row in 0..rows.len() {
        owned.push(owned_row(alloc, rows, row, types)?)?;
    }
    Ok(owned)
}

impl<'a> Eval<'a> {
    /// Makes rows of the chunks of a query.
    pub fn new(query: &'a CheckedQuery<'a>) -> Eval<'a>
        ensures { result ≡ query.now }
    {
        Eval { query }
    }

    /// The rows of a chunk in order: where each stands, by the number of the chunk, the code of its
    /// key, and its inputs.
    pub fn rows(&self, alloc: Global, chunk: &DataChunk) -> Result<Vec<SpillRow>, AllocError>
        requires fits { FitsSchema self.now.schema chunk.now.frame }
        requires placed { chunk.now.frame.height < 2 ^ 32 }
        ensures { IfOk result (λ rows. let q = query_tree self.now in
            rows.items ≡ map (spilled (key_types q))
            (chunk_rows q chunk.now.chunk_index chunk.now.frame)) }
    {
        let rows = ChunkRows::new(alloc, self.query, chunk.chunk_index, chunk)?;
        owned_rows(alloc, &rows, self.query.key_types())
    }
}
