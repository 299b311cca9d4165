//! The sum of v by k, and a chunk of its rows.

ghost use Rattle.std.specs.Prelude.{◌<◌};

use anyhow::Context;
use pipe_aggs::{AExpr, Arena, IRAggExpr, Node, Query};
use pipe_columns::{AnyValue, Column, DataChunk, DataFrame, DataType, Field, Schema, Text};
use std::alloc::{AllocError, Global};

/// How many rows the chunk has.
pub(crate) const ROWS: usize = 2048;

/// How many keys its rows have.
const KEYS: usize = 1000;

fn added(arena: &mut Arena, expr: AExpr) -> anyhow::Result<Node> {
    Ok(arena.add(expr).ok().context("no node")?)
}

/// The columns k and v, and the sum of v.
fn arena_of(alloc: Global) -> anyhow::Result<Arena> {
    let mut arena = Arena::new(alloc);
    added(&mut arena, AExpr::Column(Text::new(alloc, "k")?))?;
    let value = added(&mut arena, AExpr::Column(Text::new(alloc, "v")?))?;
    added(&mut arena, AExpr::Agg(IRAggExpr::Sum(value)))?;
    Ok(arena)
}

/// The columns k and v, of integers.
fn schema_of(alloc: Global) -> Result<Schema, AllocError> {
    let mut fields = Vec::new(alloc);
    for name in ["k", "v"] {
        let name = Text::new(alloc, name)?;
        fields.push(Field {
            name,
            dtype: DataType::Int64,
        })?;
    }
    Ok(Schema::new(fields))
}

/// The sum of v by k.
pub(crate) fn query_of(alloc: Global) -> anyhow::Result<Query> {
    Ok(Query {
        schema: schema_of(alloc)?,
        arena: arena_of(alloc)?,
        keys: vec![in alloc; Node(0)]?,
        aggs: vec![in alloc; Node(2)]?,
        slice: None,
        maintain_order: false,
    })
}

/// A column of numbers: 7 times each row's number, in a range.
fn column_of(alloc: Global, name: &str, range: usize) -> anyhow::Result<Column>
    requires { 0 < range }
{
    let mut values = Vec::new(alloc);
    for row in 0..ROWS {
        values.push(AnyValue::Int((row * 7 % range) as i128))?;
    }
    let name = Text::new(alloc, name)?;
    Ok(Column::new(name, DataType::Int64, false, values).context("no column")?)
}

/// The chunk: keys of which each comes twice or three times, and values.
pub(crate) fn chunk_of(alloc: Global) -> anyhow::Result<DataChunk> {
    let mut columns = Vec::new(alloc);
    columns.push(column_of(alloc, "k", KEYS)?)?;
    columns.push(column_of(alloc, "v", ROWS)?)?;
    Ok(DataChunk {
        chunk_index: 0,
        frame: DataFrame::new(ROWS, columns).context("no frame")?,
    })
}
