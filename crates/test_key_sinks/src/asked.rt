//! What sinks are asked: a query of one key, and chunks of some heights.

use crate::cases::Case;
use pipe_aggs::{AExpr, Arena, IRAggExpr, Node, Query};
use pipe_columns::{AnyValue, Column, DataChunk, DataFrame, DataType, Field, Schema, Text};
use std::alloc::Global;
use std::test::Fail;

/// The heights of the chunks.
pub(crate) const HEIGHTS: [usize; 7] = [3, 0, 4, 1, 5, 2, 9];

/// Texts, of keys and of values.
const WORDS: [&str; 5] = ["", "b", "a\0", "a", "ab"];

/// Adds an expression whose children are there.
fn add(arena: &mut Arena, expr: AExpr) -> Result<Node, Fail> {
    match arena.add(expr) {
        Ok(node) => Ok(node),
        Err(_) => Err("Arena::add wants memory".into()),
    }
}

/// Puts a field behind others.
fn put_field(
    alloc: Global,
    fields: &mut Vec<Field>,
    name: &str,
    dtype: DataType,
) -> Result<(), Fail> {
    let name = Text::new(alloc, name)?;
    Ok(fields.push(Field { name, dtype })?)
}

/// The columns k, which is of a type, v and t.
fn schema_of(alloc: Global, dtype: DataType) -> Result<Schema, Fail> {
    let mut fields = Vec::new(alloc);
    put_field(alloc, &mut fields, "k", dtype)?;
    put_field(alloc, &mut fields, "v", DataType::Int64)?;
    put_field(alloc, &mut fields, "t", DataType::String)?;
    Ok(Schema::new(fields))
}

/// Adds the column of a name.
fn add_column(alloc: Global, arena: &mut Arena, name: &str) -> Result<Node, Fail> {
    let name = Text::new(alloc, name)?;
    add(arena, AExpr::Column(name))
}

/// Adds an aggregate by a name to those of a query.
fn add_named(alloc: Global, query: &mut Query, agg: IRAggExpr, name: &str) -> Result<(), Fail> {
    let node = add(&mut query.arena, AExpr::Agg(agg))?;
    let name = Text::new(alloc, name)?;
    let alias = add(&mut query.arena, AExpr::Alias(node, name))?;
    Ok(query.aggs.push(alias)?)
}

/// Adds aggregates of texts too.
fn add_of_texts(alloc: Global, query: &mut Query) -> Result<(), Fail> {
    let (v, t) = (Node(1), Node(2));
    let min = IRAggExpr::Min {
        input: v,
        propagate_nans: false,
    };
    add_named(alloc, query, IRAggExpr::First(t), WORDS[1])?;
    add_named(alloc, query, IRAggExpr::Last(t), WORDS[2])?;
    add_named(alloc, query, min, WORDS[3])
}

/// Adds aggregates of numbers.
fn add_of_numbers(alloc: Global, query: &mut Query) -> Result<(), Fail> {
    let (v, t) = (Node(1), Node(2));
    add_named(alloc, query, IRAggExpr::Sum(v), WORDS[1])?;
    add_named(alloc, query, IRAggExpr::First(v), WORDS[2])?;
    add_named(alloc, query, IRAggExpr::Mean(v), WORDS[3])?;
    add_named(alloc, query, IRAggExpr::Count(t, false), WORDS[4])
}

/// Puts a key and aggregates into a query without them.
fn fill(alloc: Global, query: &mut Query, texts: bool) -> Result<(), Fail> {
    let k = add_column(alloc, &mut query.arena, "k")?;
    add_column(alloc, &mut query.arena, "v")?;
    add_column(alloc, &mut query.arena, "t")?;
    query.keys.push(k)?;
    if texts {
        return add_of_texts(alloc, query);
    }
    add_of_numbers(alloc, query)
}

/// The query of a case, whose key is of a type.
pub(crate) fn query_of(alloc: Global, dtype: DataType, case: &Case) -> Result<Query, Fail> {
    let mut query = Query {
        schema: schema_of(alloc, dtype)?,
        arena: Arena::new(alloc),
        keys: Vec::new(alloc),
        aggs: Vec::new(alloc),
        slice: case.slice,
        maintain_order: case.keeps_order,
    };
    match fill(alloc, &mut query, case.texts) {
        Ok(()) => Ok(query),
        Err(fail) => {
            drop(query);
            Err(fail)
        }
    }
}

/// The least number of a type.
fn least(dtype: DataType) -> i128 {
    match dtype {
        DataType::Int8 => -128,
        DataType::Int16 => -32768,
        DataType::Int32 => -2147483648,
        DataType::Int64 => -9223372036854775808,
        _ => 0,
    }
}

/// The greatest number of a type.
fn greatest(dtype: DataType) -> i128 {
    match dtype {
        DataType::Int8 => 127,
        DataType::Int16 => 32767,
        DataType::Int32 => 2147483647,
        DataType::Int64 => 9223372036854775807,
        DataType::UInt8 => 255,
        DataType::UInt16 => 65535,
        DataType::UInt32 => 4294967295,
        _ => 18446744073709551615,
    }
}

/// The text of a number.
fn word(alloc: Global, number: usize) -> Result<AnyValue, Fail> {
    Ok(AnyValue::Text(Text::new(alloc, WORDS[number % WORDS.len()])?))
}

/// The key of a row: every seventh is null.
fn key_of(alloc: Global, dtype: DataType, row: usize) -> Result<AnyValue, Fail> {
    if row % 7 == 6 {
        return Ok(AnyValue::Null);
    }
    let number = row / 2 % 8 * 5 % WORDS.len();
    if dtype == DataType::String {
        return word(alloc, number);
    }
    Ok(AnyValue::Int(match number {
        0 => least(dtype),
        1 => greatest(dtype),
        number => number as i128,
    }))
}

/// The value of a row in a column that is no key: every fifth is null.
fn value_of(alloc: Global, text: bool, row: usize) -> Result<AnyValue, Fail> {
    if row % 5 == 4 {
        return Ok(AnyValue::Null);
    }
    if text {
        return word(alloc, row);
    }
    Ok(AnyValue::Int(row as i128))
}

/// The value of a row in the column k, v or t.
fn cell_of(alloc: Global, name: &str, dtype: DataType, row: usize) -> Result<AnyValue, Fail> {
    match name {
        "k" => key_of(alloc, dtype, row),
        name => value_of(alloc, name == "t", row),
    }
}

/// The values of so many rows from one on in a column.
fn values_of(
    alloc: Global,
    name: &str,
    dtype: DataType,
    first: usize,
    height: usize,
) -> Result<Vec<AnyValue>, Fail> {
    let mut values = Vec::new(alloc);
    for row in 0..height {
        values.push(cell_of(alloc, name, dtype, first.wrapping_add(row))?)?;
    }
    Ok(values)
}

/// Puts a column of so many rows from one on behind others.
fn put_column(
    alloc: Global,
    columns: &mut Vec<Column>,
    name: &str,
    dtype: DataType,
    first: usize,
    height: usize,
) -> Result<(), Fail> {
    let values = values_of(alloc, name, dtype, first, height)?;
    match Column::new(Text::new(alloc, name)?, dtype, false, values) {
        Some(column) => Ok(columns.push(column)?),
        None => Err("no column".into()),
    }
}

/// Puts the columns k, v and t.
fn put_columns(
    alloc: Global,
    columns: &mut Vec<Column>,
    dtype: DataType,
    first: usize,
    height: usize,
) -> Result<(), Fail> {
    put_column(alloc, columns, "k", dtype, first, height)?;
    put_column(alloc, columns, "v", DataType::Int64, first, height)?;
    put_column(alloc, columns, "t", DataType::String, first, height)
}

/// How many rows the chunks before one have.
fn rows_before(position: usize) -> usize {
    let mut rows: usize = 0;
    for at in 0..position.min(HEIGHTS.len()) {
        rows = rows.wrapping_add(HEIGHTS[at]);
    }
    rows
}

/// The chunk at a position, under an index.
pub(crate) fn chunk_at(
    alloc: Global,
    dtype: DataType,
    position: usize,
    chunk_index: u32,
) -> Result<DataChunk, Fail> {
    let height = HEIGHTS[position % HEIGHTS.len()];
    let mut columns = Vec::new(alloc);
    put_columns(alloc, &mut columns, dtype, rows_before(position), height)?;
    match DataFrame::new(height, columns) {
        Some(frame) => Ok(DataChunk { chunk_index, frame }),
        None => Err("no frame".into()),
    }
}
