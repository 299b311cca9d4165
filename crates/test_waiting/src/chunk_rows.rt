//! Rows of a chunk that are put behind, lent.

ghost use Rattle.std.specs.Prelude.{All};
ghost use Rattle.pipe_aggs.specs.QueryTrees.{query_tree};
ghost use Rattle.pipe_inputs.specs.RowTypes.{IsRowOf};

use pipe_aggs::{AExpr, Arena, CheckedQuery, IRAggExpr, Node, Query};
use pipe_columns::{AnyValue, Column, DataChunk, DataFrame, DataType, Field, Schema, Text};
use pipe_inputs::ChunkRows;
use pipe_waiting::WaitingRows;
use std::alloc::{AllocError, Global};
use std::test::Fail;

/// Rows 0 and 1 of chunk 3: the key 127 with the value 127, and a null with a null.
const OF_CHUNK: [u8; 38] = [
    0, 0, 0, 3, 0, 0, 0, 0, 0, 0, 0, 0, 0, 0, 0, 2, 1, 255, 1, 255, //
    0, 0, 0, 3, 0, 0, 0, 1, 0, 0, 0, 0, 0, 0, 0, 1, 0, 0,
];

fn add(arena: &mut Arena, expr: AExpr) -> Result<(), Fail> {
    match arena.add(expr) {
        Ok(_) => Ok(()),
        Err(_) => Err("Arena::add wants memory".into()),
    }
}

/// Adds the column v, its sum, and the sum by the name s.
fn add_all(alloc: Global, arena: &mut Arena) -> Result<(), Fail> {
    add(arena, AExpr::Column(Text::new(alloc, "v")?))?;
    add(arena, AExpr::Agg(IRAggExpr::Sum(Node(0))))?;
    add(arena, AExpr::Alias(Node(1), Text::new(alloc, "s")?))
}

/// The arena of these.
fn arena_of(alloc: Global) -> Result<Arena, Fail> {
    let mut arena = Arena::new(alloc);
    add_all(alloc, &mut arena)?;
    Ok(arena)
}

/// The column v.
fn schema_of(alloc: Global) -> Result<Schema, AllocError> {
    let v = Field {
        name: Text::new(alloc, "v")?,
        dtype: DataType::Int8,
    };
    Ok(Schema::new(vec![in alloc; v]?))
}

/// The sum of v by v.
fn query_of(alloc: Global) -> Result<Query, Fail> {
    Ok(Query {
        keys: vec![in alloc; Node(0)]?,
        aggs: vec![in alloc; Node(2)]?,
        schema: schema_of(alloc)?,
        arena: arena_of(alloc)?,
        slice: None,
        maintain_order: false,
    })
}

/// 127 and a null.
fn column_of(alloc: Global) -> Result<Column, Fail> {
    let values = vec![in alloc; AnyValue::Int(127), AnyValue::Null]?;
    match Column::new(Text::new(alloc, "v")?, DataType::Int8, false, values) {
        Some(column) => Ok(column),
        None => Err("no column".into()),
    }
}

/// A row of 127 and a row of a null.
fn chunk_of(alloc: Global) -> Result<DataChunk, Fail> {
    match DataFrame::new(2, vec![in alloc; column_of(alloc)?]?) {
        Some(frame) => Ok(DataChunk {
            chunk_index: 3,
            frame,
        }),
        None => Err("no frame".into()),
    }
}

/// Puts the first row of the chunk behind, and the second behind it apart; both are lent.
fn put_both(
    alloc: Global,
    waiting: &mut WaitingRows,
    query: &CheckedQuery<'_>,
    rows: &ChunkRows<'_>,
) -> Result<WaitingRows, Fail>
    requires { All (IsRowOf (query_tree query.now)) rows.now }
{
    if rows.len() != 2 {
        return Err("other rows".into());
    }
    let types = query.input_types();
    waiting.push_lent(&[1, 255], rows.place(0), rows, 0, types)?;
    match waiting.with_lent(alloc, &[0], rows.place(1), rows, 1, types) {
        Ok(apart) => Ok(apart),
        Err(AllocError) => Err("with_lent wants memory".into()),
    }
}

/// Puts the rows of a chunk that has the columns of the query behind, the second apart.
fn put_chunk(
    alloc: Global,
    waiting: &mut WaitingRows,
    query: &CheckedQuery<'_>,
    chunk: &DataChunk,
) -> Result<WaitingRows, Fail> {
    if !chunk.frame.fits(&query.query().schema) {
        return Err("other columns".into());
    }
    put_both(
        alloc,
        waiting,
        query,
        &ChunkRows::new(alloc, query, 3, chunk)?,
    )
}

/// Puts the first row of the chunk behind, and the second apart, under a checked query.
fn put_new(
    alloc: Global,
    waiting: &mut WaitingRows,
    query: &CheckedQuery<'_>,
) -> Result<WaitingRows, Fail> {
    let chunk = chunk_of(alloc)?;
    put_chunk(alloc, waiting, query, &chunk)
}

/// The same under a new query.
fn fill(alloc: Global, waiting: &mut WaitingRows) -> Result<WaitingRows, Fail> {
    let query = query_of(alloc)?;
    match query.check(alloc) {
        Ok(checked) => put_new(alloc, waiting, &checked),
        Err(_) => Err("Query::check wants memory".into()),
    }
}

/// Whether the first row of the chunk waits as it is to, and both wait so apart.
pub(crate) fn wait_as_bytes(alloc: Global, waiting: &mut WaitingRows) -> Result<bool, Fail> {
    let apart = fill(alloc, waiting)?;
    let first = waiting.len() == 1 && waiting.bytes() == &OF_CHUNK[..20];
    Ok(first && apart.len() == 2 && apart.bytes() == OF_CHUNK.as_slice())
}
