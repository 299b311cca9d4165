//! What tests ask: queries over the columns k and v, and chunks of them.

use pipe_aggs::{AExpr, Arena, IRAggExpr, Node, Query};
use pipe_columns::{AnyValue, Column, DataChunk, DataFrame, DataType, Field, Schema, Text};
use std::alloc::{AllocError, Global};
use std::test::Fail;

/// Fails a test where what it asks isn't so.
pub(crate) fn hold(answer: Result<bool, Fail>) -> Result<(), Fail> {
    match answer {
        Ok(true) => Ok(()),
        Ok(false) => Err("it isn't so".into()),
        Err(fail) => Err(fail),
    }
}

fn added(arena: &mut Arena, expr: AExpr) -> Result<Node, Fail> {
    match arena.add(expr) {
        Ok(node) => Ok(node),
        Err(_) => Err("Arena::add wants memory".into()),
    }
}

/// Puts a field behind others.
fn put_field(
    alloc: Global,
    fields: &mut Vec<Field>,
    name: &str,
    dtype: DataType,
) -> Result<(), AllocError> {
    let name = Text::new(alloc, name)?;
    Ok(fields.push(Field { name, dtype })?)
}

/// The columns k and v.
fn schema_of(alloc: Global, types: [DataType; 2]) -> Result<Schema, AllocError> {
    let mut fields = Vec::new(alloc);
    put_field(alloc, &mut fields, "k", types[0])?;
    put_field(alloc, &mut fields, "v", types[1])?;
    Ok(Schema::new(fields))
}

/// Adds the column of a name.
fn add_column(alloc: Global, arena: &mut Arena, name: &str) -> Result<Node, Fail> {
    let name = Text::new(alloc, name)?;
    added(arena, AExpr::Column(name))
}

/// Adds an aggregate by a name to those of a query.
fn add_named(alloc: Global, query: &mut Query, agg: AExpr, name: &str) -> Result<(), Fail> {
    let value = added(&mut query.arena, agg)?;
    let name = Text::new(alloc, name)?;
    let alias = added(&mut query.arena, AExpr::Alias(value, name))?;
    Ok(query.aggs.push(alias)?)
}

/// Puts keys and aggregates into a query without them.
fn fill(alloc: Global, query: &mut Query, keys: usize, ends: bool) -> Result<(), Fail> {
    let k = add_column(alloc, &mut query.arena, "k")?;
    let v = add_column(alloc, &mut query.arena, "v")?;
    query.keys.push(k)?;
    if keys == 2 {
        query.keys.push(v)?;
    }
    if ends {
        add_named(alloc, query, AExpr::Agg(IRAggExpr::First(v)), "a")?;
        add_named(alloc, query, AExpr::Agg(IRAggExpr::Last(v)), "b")?;
    }
    add_named(alloc, query, AExpr::Len, "c")
}

/// A query over the columns k and v, of which the first one or both are keys: the first and the last v,
/// where these ends are asked for, and how many rows there are.
pub(crate) fn query_of(
    alloc: Global,
    types: [DataType; 2],
    keys: usize,
    ends: bool,
) -> Result<Query, Fail> {
    let mut query = Query {
        schema: schema_of(alloc, types)?,
        arena: Arena::new(alloc),
        keys: Vec::new(alloc),
        aggs: Vec::new(alloc),
        slice: None,
        maintain_order: false,
    };
    match fill(alloc, &mut query, keys, ends) {
        Ok(()) => Ok(query),
        Err(fail) => {
            drop(query);
            Err(fail)
        }
    }
}

/// The value of a number: -1 stands for a null.
fn value_of(number: i128) -> AnyValue {
    if number == -1 {
        AnyValue::Null
    } else {
        AnyValue::Int(number)
    }
}

/// Numbers as values: -1 stands for a null.
pub(crate) fn numbers(alloc: Global, numbers: &[i128]) -> Result<Vec<AnyValue>, AllocError> {
    let mut values = Vec::new(alloc);
    for number in numbers {
        values.push(value_of(*number))?;
    }
    Ok(values)
}

pub(crate) fn texts(alloc: Global, texts: &[&str]) -> Result<Vec<AnyValue>, AllocError> {
    let mut values = Vec::new(alloc);
    for text in texts {
        values.push(AnyValue::Text(Text::new(alloc, text)?))?;
    }
    Ok(values)
}

/// Puts a column of a name below others.
fn put_column(
    alloc: Global,
    columns: &mut Vec<Column>,
    name: &str,
    dtype: DataType,
    sorted: bool,
    values: Vec<AnyValue>,
) -> Result<(), Fail> {
    match Column::new(Text::new(alloc, name)?, dtype, sorted, values) {
        Some(column) => Ok(columns.push(column)?),
        None => Err("no column".into()),
    }
}

/// A chunk of the columns k and v, under a flag that says whether they are sorted.
pub(crate) fn chunk_of(
    alloc: Global,
    types: [DataType; 2],
    sorted: bool,
    k: Vec<AnyValue>,
    v: Vec<AnyValue>,
) -> Result<DataChunk, Fail> {
    let height = k.len();
    let mut columns = Vec::new(alloc);
    put_column(alloc, &mut columns, "k", types[0], sorted, k)?;
    put_column(alloc, &mut columns, "v", types[1], sorted, v)?;
    match DataFrame::new(height, columns) {
        Some(frame) => Ok(DataChunk {
            chunk_index: 0,
            frame,
        }),
        None => Err("no frame".into()),
    }
}

/// A chunk of the columns k and v, of numbers.
pub(crate) fn chunk_of_numbers(
    alloc: Global,
    types: [DataType; 2],
    sorted: bool,
    k: &[i128],
    v: &[i128],
) -> Result<DataChunk, Fail> {
    let k = numbers(alloc, k)?;
    chunk_of(alloc, types, sorted, k, numbers(alloc, v)?)
}

/// Whether values are these numbers: -1 stands for a null.
fn are_numbers(values: &[AnyValue], numbers: &[i128]) -> bool {
    if values.len() != numbers.len() {
        return false;
    }
    for at in 0..numbers.len() {
        if values[at] != value_of(numbers[at]) {
            return false;
        }
    }
    true
}

/// Whether a column of a frame has these numbers: -1 stands for a null.
pub(crate) fn has_numbers(frame: &DataFrame, column: usize, numbers: &[i128]) -> bool {
    match frame.columns().get(column) {
        Some(column) => are_numbers(column.values(), numbers),
        None => false,
    }
}

/// Whether values are these texts.
fn are_texts(values: &[AnyValue], texts: &[&str]) -> bool {
    if values.len() != texts.len() {
        return false;
    }
    for at in 0..texts.len() {
        match &values[at] {
            AnyValue::Text(text) if text.as_str() == texts[at] => {}
            _ => return false,
        }
    }
    true
}

/// Whether a column of a frame has these texts.
pub(crate) fn has_texts(frame: &DataFrame, column: usize, texts: &[&str]) -> bool {
    match frame.columns().get(column) {
        Some(column) => are_texts(column.values(), texts),
        None => false,
    }
}
