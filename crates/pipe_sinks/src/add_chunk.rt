//! A chunk whose rows come into a table of their own, which another table then takes over.

ghost use Rattle.std.specs.Prelude.{◌≡◌, ◌<◌, ◌^◌, ◌∷◌, [], OnErr, OnOk};
ghost use Rattle.pipe_columns.specs.Frame.{FitsSchema, HoldsTypes};
ghost use Rattle.pipe_aggs.specs.QueryTrees.{query_tree};
ghost use Rattle.pipe_groups.specs.Shape.{shape_of};
ghost use Rattle.pipe_model.specs.Output.{key_types};
ghost use Rattle.pipe_sinks.specs.Apart.{MayTakeOver, TookOver};
ghost use Rattle.pipe_sinks.specs.SoleKeys.{IsSole};
ghost use Rattle.pipe_sinks.specs.RunLayout.{HoldsChunks};
ghost use Rattle.pipe_keyed.specs.Tables.{HasGroups};

use crate::key_table::KeyTable;
use pipe_aggs::CheckedQuery;
use pipe_columns::DataChunk;
use pipe_inputs::ChunkRows;
use std::alloc::{AllocError, Global};

/// Puts the rows of a chunk into a table of no groups.
fn add_chunk(
    alloc: Global,
    table: &mut KeyTable,
    key: &mut Vec<u8>,
    query: &CheckedQuery<'_>,
    index: u32,
    chunk: &DataChunk,
) -> Result<(), AllocError>
    requires index { index ≡ chunk.now.chunk_index }
    requires fits { FitsSchema query.now.schema chunk.now.frame }
    requires height { chunk.now.frame.height < 2 ^ 32 }
    requires shape { table.old.shape ≡ shape_of (query_tree query.now) }
    requires none { table.old.groups ≡ [] }
    requires sole { IsSole (key_types (query_tree query.now)) }
    ensures holds { OnOk result
        (HoldsChunks (query_tree query.now) (chunk.now ∷ []) table.new) }
    ensures types { HoldsTypes chunk.now.frame }
{
    let height = chunk.frame.height();
    let rows = ChunkRows::new(alloc, query, index, chunk)?;
    let types = query.key_types();
    for row in 0..height {
        table.insert_lent(key, types, &rows, row)?;
    }
    Ok(())
}

/// Puts the rows of a chunk into a table of no groups, which another then takes over.
fn add_through(
    alloc: Global,
    table: &mut KeyTable,
    part: &mut KeyTable,
    key: &mut Vec<u8>,
    query: &CheckedQuery<'_>,
    index: u32,
    chunk: &DataChunk,
) -> Result<(), AllocError>
    requires index { index ≡ chunk.now.chunk_index }
    requires fits { FitsSchema query.now.schema chunk.now.frame }
    requires height { chunk.now.frame.height < 2 ^ 32 }
    requires shape { table.old.shape ≡ shape_of (query_tree query.now) }
    requires part_shape { part.old.shape ≡ shape_of (query_tree query.now) }
    requires none { part.old.groups ≡ [] }
    requires sole { IsSole (key_types (query_tree query.now)) }
    requires few { MayTakeOver (query_tree query.now) chunk.now table.old }
    ensures took { OnOk result (TookOver (query_tree query.now) chunk.now table.old table.new) }
    ensures err { OnErr result (HasGroups table.old table.new table.old.groups) }
{
    add_chunk(alloc, part, key, query, index, chunk)?;
    table.combine(part)
}

/// Puts the rows of a chunk into a table. They are put into one of their own first, which the table takes
/// over once all memory is had.
pub(crate) fn add_apart(
    alloc: Global,
    table: &mut KeyTable,
    key: &mut Vec<u8>,
    query: &CheckedQuery<'_>,
    index: u32,
    chunk: &DataChunk,
) -> Result<(), AllocError>
    requires index { index ≡ chunk.now.chunk_index }
    requires fits { FitsSchema query.now.schema chunk.now.frame }
    requires height { chunk.now.frame.height < 2 ^ 32 }
    requires shape { table.old.shape ≡ shape_of (query_tree query.now) }
    requires sole { IsSole (key_types (query_tree query.now)) }
    requires few { MayTakeOver (query_tree query.now) chunk.now table.old }
    ensures took { OnOk result (TookOver (query_tree query.now) chunk.now table.old table.new) }
    ensures err { OnErr result (HasGroups table.old table.new table.old.groups) }
{
    let mut part = table.split()?;
    add_through(alloc, table, &mut part, key, query, index, chunk)
}
