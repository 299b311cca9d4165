//! What runs are asked: the sum of v by k, and chunks of the columns k and v.

use pipe_aggs::{AExpr, Arena, IRAggExpr, Node, Query};
use pipe_columns::{AnyValue, Column, DataChunk, DataFrame, DataType, Field, Schema, Text};
use std::alloc::Global;
use std::test::Fail;

/// A key and a value.
pub(crate) type Pair = (i128, i128);

/// Adds an expression whose children are there.
fn add(arena: &mut Arena, expr: AExpr) -> Result<(), Fail> {
    match arena.add(expr) {
        Ok(_) => Ok(()),
        Err(_) => Err("Arena::add wants memory".into()),
    }
}

/// Puts a field of numbers behind others.
fn put_field(alloc: Global, fields: &mut Vec<Field>, name: &str) -> Result<(), Fail> {
    let name = Text::new(alloc, name)?;
    let dtype = DataType::Int64;
    Ok(fields.push(Field { name, dtype })?)
}

/// The columns k and v of numbers.
fn schema_of(alloc: Global) -> Result<Schema, Fail> {
    let mut fields = Vec::new(alloc);
    put_field(alloc, &mut fields, "k")?;
    put_field(alloc, &mut fields, "v")?;
    Ok(Schema::new(fields))
}

/// Adds the column of a name.
fn add_column(alloc: Global, arena: &mut Arena, name: &str) -> Result<(), Fail> {
    let name = Text::new(alloc, name)?;
    add(arena, AExpr::Column(name))
}

/// Puts the sum of v by k into a query of nothing.
fn fill(alloc: Global, query: &mut Query) -> Result<(), Fail> {
    add_column(alloc, &mut query.arena, "k")?;
    add_column(alloc, &mut query.arena, "v")?;
    add(&mut query.arena, AExpr::Agg(IRAggExpr::Sum(Node(1))))?;
    query.keys.push(Node(0))?;
    Ok(query.aggs.push(Node(2))?)
}

/// The sum of v by k.
pub(crate) fn sum_query(alloc: Global) -> Result<Query, Fail> {
    let mut query = Query {
        schema: schema_of(alloc)?,
        arena: Arena::new(alloc),
        keys: Vec::new(alloc),
        aggs: Vec::new(alloc),
        slice: None,
        maintain_order: false,
    };
    match fill(alloc, &mut query) {
        Ok(()) => Ok(query),
        Err(fail) => {
            drop(query);
            Err(fail)
        }
    }
}

/// Puts a column of the keys or of the values of rows behind others.
fn put_column(
    alloc: Global,
    columns: &mut Vec<Column>,
    name: &str,
    rows: &[Pair],
) -> Result<(), Fail> {
    let mut values = Vec::new(alloc);
    for (k, v) in rows {
        values.push(AnyValue::Int(if name == "k" { *k } else { *v }))?;
    }
    match Column::new(Text::new(alloc, name)?, DataType::Int64, false, values) {
        Some(column) => Ok(columns.push(column)?),
        None => Err("no column".into()),
    }
}

/// A chunk of rows, with an index that no run looks at.
fn chunk_of(alloc: Global, rows: &[Pair]) -> Result<DataChunk, Fail> {
    let mut columns = Vec::new(alloc);
    put_column(alloc, &mut columns, "k", rows)?;
    put_column(alloc, &mut columns, "v", rows)?;
    match DataFrame::new(rows.len(), columns) {
        Some(frame) => Ok(DataChunk {
            chunk_index: 7,
            frame,
        }),
        None => Err("no frame".into()),
    }
}

/// A chunk for each list of rows.
pub(crate) fn chunks_of(alloc: Global, lists: &[&[Pair]]) -> Result<Vec<DataChunk>, Fail> {
    let mut chunks = Vec::new(alloc);
    for rows in lists {
        chunks.push(chunk_of(alloc, rows)?)?;
    }
    Ok(chunks)
}

/// Fails a test where what it asks isn't so.
pub(crate) fn hold(answer: Result<bool, Fail>) -> Result<(), Fail> {
    match answer {
        Ok(true) => Ok(()),
        Ok(false) => Err("it isn't so".into()),
        Err(fail) => Err(fail),
    }
}
