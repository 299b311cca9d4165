//! What the runs of the table are asked: a query, and chunks of some heights.

use pipe_aggs::{AExpr, Arena, IRAggExpr, Node, Query};
use pipe_columns::{AnyValue, Column, DataChunk, DataFrame, DataType, Field, Schema, Text};
use std::alloc::Global;
use std::test::Fail;

/// The heights of the chunks.
const HEIGHTS: [usize; 6] = [3, 0, 4, 1, 5, 2];

/// Texts of keys.
const WORDS: [&str; 5] = ["", "b", "a\0", "a", "ab"];

/// Adds an expression whose children are there.
fn add(arena: &mut Arena, expr: AExpr) -> Result<Node, Fail> {
    match arena.add(expr) {
        Ok(node) => Ok(node),
        Err(_) => Err("Arena::add wants memory".into()),
    }
}

/// Puts a field behind others.
fn put_field(
    alloc: Global,
    fields: &mut Vec<Field>,
    name: &str,
    dtype: DataType,
) -> Result<(), Fail> {
    let name = Text::new(alloc, name)?;
    Ok(fields.push(Field { name, dtype })?)
}

/// The columns k, which is of a type, and v.
fn schema_of(alloc: Global, dtype: DataType) -> Result<Schema, Fail> {
    let mut fields = Vec::new(alloc);
    put_field(alloc, &mut fields, "k", dtype)?;
    put_field(alloc, &mut fields, "v", DataType::Int64)?;
    Ok(Schema::new(fields))
}

/// Adds the column of a name.
fn add_column(alloc: Global, arena: &mut Arena, name: &str) -> Result<Node, Fail> {
    let name = Text::new(alloc, name)?;
    add(arena, AExpr::Column(name))
}

/// Adds an aggregate by a name to those of a query.
fn add_named(alloc: Global, query: &mut Query, agg: IRAggExpr, name: &str) -> Result<(), Fail> {
    let node = add(&mut query.arena, AExpr::Agg(agg))?;
    let name = Text::new(alloc, name)?;
    let alias = add(&mut query.arena, AExpr::Alias(node, name))?;
    Ok(query.aggs.push(alias)?)
}

/// Puts the sum, the first, the mean and the number of v by k into a query of nothing.
fn fill(alloc: Global, query: &mut Query) -> Result<(), Fail> {
    let k = add_column(alloc, &mut query.arena, "k")?;
    let v = add_column(alloc, &mut query.arena, "v")?;
    query.keys.push(k)?;
    add_named(alloc, query, IRAggExpr::Sum(v), WORDS[1])?;
    add_named(alloc, query, IRAggExpr::First(v), WORDS[2])?;
    add_named(alloc, query, IRAggExpr::Mean(v), WORDS[3])?;
    add_named(alloc, query, IRAggExpr::Count(v, false), WORDS[4])
}

/// The sum, the first, the mean and the number of v by k, which is of a type. Every other number keeps
/// order, and every third has a slice.
pub(crate) fn query_of(alloc: Global, dtype: DataType, number: usize) -> Result<Query, Fail> {
    let mut query = Query {
        schema: schema_of(alloc, dtype)?,
        arena: Arena::new(alloc),
        keys: Vec::new(alloc),
        aggs: Vec::new(alloc),
        slice: if number % 3 == 0 { Some((1, 3)) } else { None },
        maintain_order: number % 2 == 0,
    };
    match fill(alloc, &mut query) {
        Ok(()) => Ok(query),
        Err(fail) => {
            drop(query);
            Err(fail)
        }
    }
}

/// The key of a row: every seventh is null.
fn key_of(alloc: Global, dtype: DataType, row: usize) -> Result<AnyValue, Fail> {
    if row % 7 == 6 {
        return Ok(AnyValue::Null);
    }
    let number = (row % 8) * 5 % WORDS.len();
    if dtype == DataType::String {
        return Ok(AnyValue::Text(Text::new(alloc, WORDS[number])?));
    }
    Ok(AnyValue::Int(number as i128))
}

/// The value of a row in the column k or v: of v every fifth is null.
fn value_of(alloc: Global, name: &str, dtype: DataType, row: usize) -> Result<AnyValue, Fail> {
    if name == "k" {
        return key_of(alloc, dtype, row);
    }
    Ok(if row % 5 == 4 {
        AnyValue::Null
    } else {
        AnyValue::Int(row as i128)
    })
}

/// Puts the column k or v of so many rows from one on behind others.
fn put_column(
    alloc: Global,
    columns: &mut Vec<Column>,
    name: &str,
    dtype: DataType,
    first: usize,
    height: usize,
) -> Result<(), Fail> {
    let mut values = Vec::new(alloc);
    for row in 0..height {
        values.push(value_of(alloc, name, dtype, first.wrapping_add(row))?)?;
    }
    match Column::new(Text::new(alloc, name)?, dtype, false, values) {
        Some(column) => Ok(columns.push(column)?),
        None => Err("no column".into()),
    }
}

/// A chunk of so many rows from one on. Its index is none that a run would give it.
fn chunk_of(
    alloc: Global,
    dtype: DataType,
    first: usize,
    height: usize,
) -> Result<DataChunk, Fail> {
    let mut columns = Vec::new(alloc);
    put_column(alloc, &mut columns, "k", dtype, first, height)?;
    put_column(alloc, &mut columns, "v", DataType::Int64, first, height)?;
    match DataFrame::new(height, columns) {
        Some(frame) => Ok(DataChunk {
            chunk_index: 4294967295,
            frame,
        }),
        None => Err("no frame".into()),
    }
}

/// The chunks that are asked, from one on, and at most so many.
pub(crate) fn chunks_of(
    alloc: Global,
    dtype: DataType,
    from: usize,
    most: usize,
) -> Result<Vec<DataChunk>, Fail> {
    let mut chunks = Vec::new(alloc);
    let mut first: usize = 0;
    for at in 0..HEIGHTS.len() {
        if from <= at && chunks.len() < most {
            chunks.push(chunk_of(alloc, dtype, first, HEIGHTS[at])?)?;
        }
        first = first.wrapping_add(HEIGHTS[at]);
    }
    Ok(chunks)
}

/// How many chunks there are.
pub(crate) fn count_chunks() -> usize {
    HEIGHTS.len()
}
