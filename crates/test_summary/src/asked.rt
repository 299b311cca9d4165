//! What tests ask: a sum and a count of v by k, and chunks of these columns.

use pipe_aggs::{AExpr, Arena, IRAggExpr, Node, Query};
use pipe_columns::{AnyValue, Column, DataChunk, DataFrame, DataType, Field, Schema, Text};
use std::alloc::{AllocError, Global};
use std::test::Fail;

fn added(arena: &mut Arena, expr: AExpr) -> Result<Node, Fail> {
    match arena.add(expr) {
        Ok(node) => Ok(node),
        Err(_) => Err("Arena::add wants memory".into()),
    }
}

fn schema_of(alloc: Global) -> Result<Schema, AllocError> {
    let mut fields = Vec::new(alloc);
    for name in ["k", "v"] {
        let name = Text::new(alloc, name)?;
        fields.push(Field {
            name,
            dtype: DataType::Int64,
        })?;
    }
    Ok(Schema::new(fields))
}

/// Adds an aggregate by a name.
fn add_named(alloc: Global, arena: &mut Arena, agg: IRAggExpr, name: &str) -> Result<Node, Fail> {
    let value = added(arena, AExpr::Agg(agg))?;
    added(arena, AExpr::Alias(value, Text::new(alloc, name)?))
}

/// The columns k and v, and the sum s and the count c of v.
fn arena_of(alloc: Global) -> Result<Arena, Fail> {
    let mut arena = Arena::new(alloc);
    for name in ["k", "v"] {
        added(&mut arena, AExpr::Column(Text::new(alloc, name)?))?;
    }
    add_named(alloc, &mut arena, IRAggExpr::Sum(Node(1)), "s")?;
    add_named(alloc, &mut arena, IRAggExpr::Count(Node(1), false), "c")?;
    Ok(arena)
}

/// The sum s and the count c of v by k.
pub(crate) fn sum_and_count(alloc: Global) -> Result<Query, Fail> {
    Ok(Query {
        keys: vec![in alloc; Node(0)]?,
        aggs: vec![in alloc; Node(3), Node(5)]?,
        schema: schema_of(alloc)?,
        arena: arena_of(alloc)?,
        slice: None,
        maintain_order: false,
    })
}

/// A column of numbers.
fn column_of(alloc: Global, name: &str, numbers: &[i128]) -> Result<Column, Fail> {
    let mut values = Vec::new(alloc);
    for number in numbers {
        values.push(AnyValue::Int(*number))?;
    }
    match Column::new(Text::new(alloc, name)?, DataType::Int64, false, values) {
        Some(column) => Ok(column),
        None => Err("no column".into()),
    }
}

/// A chunk of the columns k and v.
fn chunk_of(alloc: Global, keys: &[i128], numbers: &[i128]) -> Result<DataChunk, Fail> {
    let mut columns = Vec::new(alloc);
    columns.push(column_of(alloc, "k", keys)?)?;
    columns.push(column_of(alloc, "v", numbers)?)?;
    match DataFrame::new(keys.len(), columns) {
        Some(frame) => Ok(DataChunk {
            chunk_index: 0,
            frame,
        }),
        None => Err("no frame".into()),
    }
}

/// The rows 1,5 and 2,6.
pub(crate) fn two_rows(alloc: Global) -> Result<DataChunk, Fail> {
    chunk_of(alloc, &[1, 2], &[5, 6])
}

/// The row 1,7.
pub(crate) fn one_row(alloc: Global) -> Result<DataChunk, Fail> {
    chunk_of(alloc, &[1], &[7])
}

/// Whether values are these numbers.
fn are(values: &[AnyValue], numbers: &[i128]) -> bool {
    for (value, number) in values.iter().zip(numbers) {
        if !matches!(value, AnyValue::Int(found) if *found == *number) {
            return false;
        }
    }
    values.len() == numbers.len()
}

/// Whether a frame is the answer over the rows 1,5 and 2,6 and 1,7.
pub(crate) fn is_of_three(frame: &DataFrame) -> bool {
    let all = frame.columns();
    all.len() == 3
        && are(all[0].values(), &[1, 2])
        && are(all[1].values(), &[12, 6])
        && are(all[2].values(), &[2, 1])
}
