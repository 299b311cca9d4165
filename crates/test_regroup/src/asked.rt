//! What tests ask: a query of two keys, and chunks of its columns k, g and v.

use pipe_aggs::{AExpr, Arena, IRAggExpr, Node, Query};
use pipe_columns::{AnyValue, Column, DataChunk, DataFrame, DataType, Field, Schema, Text};
use std::alloc::{AllocError, Global};
use std::test::Fail;

/// The columns, all of them numbers of 64 bits.
const COLUMNS: [&str; 3] = ["k", "g", "v"];

fn added(arena: &mut Arena, expr: AExpr) -> Result<Node, Fail> {
    match arena.add(expr) {
        Ok(node) => Ok(node),
        Err(_) => Err("Arena::add wants memory".into()),
    }
}

fn schema_of(alloc: Global) -> Result<Schema, AllocError> {
    let mut fields = Vec::new(alloc);
    for name in COLUMNS {
        let name = Text::new(alloc, name)?;
        fields.push(Field {
            name,
            dtype: DataType::Int64,
        })?;
    }
    Ok(Schema::new(fields))
}

/// Adds an aggregate of v by a name.
fn add_named(alloc: Global, arena: &mut Arena, agg: IRAggExpr, name: &str) -> Result<Node, Fail> {
    let value = added(arena, AExpr::Agg(agg))?;
    added(arena, AExpr::Alias(value, Text::new(alloc, name)?))
}

/// Adds the columns, and the sum s, the first f, the mean m and the last l of v.
fn add_all(alloc: Global, arena: &mut Arena) -> Result<(), Fail> {
    for name in COLUMNS {
        added(arena, AExpr::Column(Text::new(alloc, name)?))?;
    }
    add_named(alloc, arena, IRAggExpr::Sum(Node(2)), "s")?;
    add_named(alloc, arena, IRAggExpr::First(Node(2)), "f")?;
    add_named(alloc, arena, IRAggExpr::Mean(Node(2)), "m")?;
    add_named(alloc, arena, IRAggExpr::Last(Node(2)), "l")?;
    Ok(())
}

/// The arena of the columns and the aggregates.
fn arena_of(alloc: Global) -> Result<Arena, Fail> {
    let mut arena = Arena::new(alloc);
    add_all(alloc, &mut arena)?;
    Ok(arena)
}

/// The sum s, the first f, the mean m and the last l of v by k and g.
pub(crate) fn four_aggregates(alloc: Global) -> Result<Query, Fail> {
    Ok(Query {
        keys: vec![in alloc; Node(0), Node(1)]?,
        aggs: vec![in alloc; Node(4), Node(6), Node(8), Node(10)]?,
        schema: schema_of(alloc)?,
        arena: arena_of(alloc)?,
        slice: None,
        maintain_order: false,
    })
}

/// A column of numbers.
fn column_of(alloc: Global, name: &str, numbers: &[i128]) -> Result<Column, Fail> {
    let mut values = Vec::new(alloc);
    for number in numbers {
        values.push(AnyValue::Int(*number))?;
    }
    match Column::new(Text::new(alloc, name)?, DataType::Int64, false, values) {
        Some(column) => Ok(column),
        None => Err("no column".into()),
    }
}

/// A chunk of these numbers, column by column.
fn chunk_of(alloc: Global, numbers: [&[i128]; 3]) -> Result<DataChunk, Fail> {
    let mut columns = Vec::new(alloc);
    for i in 0..3 {
        columns.push(column_of(alloc, COLUMNS[i], numbers[i])?)?;
    }
    match DataFrame::new(numbers[0].len(), columns) {
        Some(frame) => Ok(DataChunk {
            chunk_index: 0,
            frame,
        }),
        None => Err("no frame".into()),
    }
}

/// The rows 1,1,5 and 1,2,6 and 2,1,7.
pub(crate) fn three_rows(alloc: Global) -> Result<DataChunk, Fail> {
    chunk_of(alloc, [&[1, 1, 2], &[1, 2, 1], &[5, 6, 7]])
}

/// The row 1,1,9.
pub(crate) fn one_row(alloc: Global) -> Result<DataChunk, Fail> {
    chunk_of(alloc, [&[1], &[1], &[9]])
}

/// Whether values are these numbers.
pub(crate) fn are(values: &[AnyValue], numbers: &[i128]) -> bool {
    for (value, number) in values.iter().zip(numbers) {
        if !matches!(value, AnyValue::Int(found) if *found == *number) {
            return false;
        }
    }
    values.len() == numbers.len()
}
