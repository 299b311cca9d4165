//! Values, chunks and queries, made out of tables.

use pipe_aggs::{AExpr, AddError, Arena, IRAggExpr, Node, Operator, Query};
use pipe_columns::{AnyValue, Column, DataChunk, DataFrame, DataType, Field, Schema, Text};
use std::alloc::{AllocError, Global};
use std::test::Fail;

/// A value as a table has it.
#[derive(Clone, Copy)]
pub(crate) enum Seen {
    Null,
    Int(i128),
    Word(&'static str),
}

/// The name and the type of a column.
pub(crate) type Typed = (&'static str, DataType);

/// A row of values.
pub(crate) type Row = &'static [Seen];

/// An expression as a table has it, which names earlier ones by their places.
#[derive(Clone, Copy)]
pub(crate) enum Given {
    Column(&'static str),
    Literal(DataType, i128),
    Binary(usize, Operator, usize),
    Alias(usize, &'static str),
    Agg(Kind, usize),
    Len,
}

/// A kind of aggregate.
#[derive(Clone, Copy)]
pub(crate) enum Kind {
    First,
    Last,
    Count,
    Sum,
    Min,
    Max,
    Mean,
}

/// A query as a table has it: columns, expressions, keys and aggregates.
#[derive(Clone, Copy)]
pub(crate) struct Asked {
    pub columns: &'static [Typed],
    pub exprs: &'static [Given],
    pub keys: &'static [usize],
    pub aggs: &'static [usize],
}

/// A value of a table.
pub(crate) fn value_of(alloc: Global, seen: Seen) -> Result<AnyValue, AllocError> {
    match seen {
        Seen::Null => Ok(AnyValue::Null),
        Seen::Int(number) => Ok(AnyValue::Int(number)),
        Seen::Word(word) => Ok(AnyValue::Text(Text::new(alloc, word)?)),
    }
}

/// Whether a value is that of a table.
pub(crate) fn is_value(value: &AnyValue, seen: Seen) -> bool {
    match (value, seen) {
        (AnyValue::Null, Seen::Null) => true,
        (AnyValue::Int(found), Seen::Int(number)) => *found == number,
        (AnyValue::Text(found), Seen::Word(word)) => found.as_str() == word,
        _ => false,
    }
}

/// The values at a place of rows, null where a row has none.
fn values_of(alloc: Global, rows: &[Row], place: usize) -> Result<Vec<AnyValue>, AllocError> {
    let mut values = Vec::new(alloc);
    for row in rows {
        let seen = row.get(place).copied().unwrap_or(Seen::Null);
        values.push(value_of(alloc, seen)?)?;
    }
    Ok(values)
}

/// The column at a place of rows.
fn column_of(alloc: Global, typed: Typed, rows: &[Row], place: usize) -> Result<Column, Fail> {
    let name = Text::new(alloc, typed.0)?;
    let values = values_of(alloc, rows, place)?;
    match Column::new(name, typed.1, false, values) {
        Some(column) => Ok(column),
        None => Err("no column".into()),
    }
}

/// The columns of rows.
fn columns_of(alloc: Global, typed: &[Typed], rows: &[Row]) -> Result<Vec<Column>, Fail> {
    let mut columns = Vec::new(alloc);
    for (place, typed) in typed.iter().enumerate() {
        columns.push(column_of(alloc, *typed, rows, place)?)?;
    }
    Ok(columns)
}

/// The chunk of rows.
fn chunk_of(alloc: Global, typed: &[Typed], rows: &[Row]) -> Result<DataChunk, Fail> {
    match DataFrame::new(rows.len(), columns_of(alloc, typed, rows)?) {
        Some(frame) => Ok(DataChunk {
            chunk_index: 0,
            frame,
        }),
        None => Err("no frame".into()),
    }
}

/// Chunks of rows.
pub(crate) fn chunks_of(
    alloc: Global,
    typed: &[Typed],
    pieces: &[&[Row]],
) -> Result<Vec<DataChunk>, Fail> {
    let mut chunks = Vec::new(alloc);
    for rows in pieces {
        chunks.push(chunk_of(alloc, typed, rows)?)?;
    }
    Ok(chunks)
}

/// The schema of columns.
fn schema_of(alloc: Global, typed: &[Typed]) -> Result<Schema, AllocError> {
    let mut fields = Vec::new(alloc);
    for (name, dtype) in typed {
        let name = Text::new(alloc, name)?;
        let dtype = *dtype;
        fields.push(Field { name, dtype })?;
    }
    Ok(Schema::new(fields))
}

/// An aggregate of a node.
fn agg_of(kind: Kind, input: Node) -> IRAggExpr {
    let propagate_nans = false;
    match kind {
        Kind::First => IRAggExpr::First(input),
        Kind::Last => IRAggExpr::Last(input),
        Kind::Count => IRAggExpr::Count(input, false),
        Kind::Sum => IRAggExpr::Sum(input),
        Kind::Min => IRAggExpr::Min {
            input,
            propagate_nans,
        },
        Kind::Max => IRAggExpr::Max {
            input,
            propagate_nans,
        },
        Kind::Mean => IRAggExpr::Mean(input),
    }
}

/// An expression of a table.
fn expr_of(alloc: Global, given: Given) -> Result<AExpr, AllocError> {
    let expr = match given {
        Given::Column(name) => AExpr::Column(Text::new(alloc, name)?),
        Given::Literal(dtype, number) => AExpr::Literal {
            dtype,
            value: AnyValue::Int(number),
        },
        Given::Binary(left, op, right) => AExpr::BinaryExpr {
            left: Node(left),
            op,
            right: Node(right),
        },
        Given::Alias(input, name) => AExpr::Alias(Node(input), Text::new(alloc, name)?),
        Given::Agg(kind, input) => AExpr::Agg(agg_of(kind, Node(input))),
        Given::Len => AExpr::Len,
    };
    Ok(expr)
}

/// Adds an expression of a table.
fn add(alloc: Global, arena: &mut Arena, given: Given) -> Result<(), Fail> {
    match arena.add(expr_of(alloc, given)?) {
        Ok(_) => Ok(()),
        Err(AddError::Memory) => Err(AllocError.into()),
        Err(AddError::NoChild) => Err("no child".into()),
    }
}

/// The arena of a table.
fn arena_of(alloc: Global, exprs: &[Given]) -> Result<Arena, Fail> {
    let mut arena = Arena::new(alloc);
    for given in exprs {
        add(alloc, &mut arena, *given)?;
    }
    Ok(arena)
}

/// Nodes by their places.
fn nodes_of(alloc: Global, places: &[usize]) -> Result<Vec<Node>, AllocError> {
    let mut nodes = Vec::new(alloc);
    for place in places {
        nodes.push(Node(*place))?;
    }
    Ok(nodes)
}

/// The query of a table.
pub(crate) fn query_of(
    alloc: Global,
    asked: Asked,
    slice: Option<(i64, usize)>,
    maintain_order: bool,
) -> Result<Query, Fail> {
    Ok(Query {
        keys: nodes_of(alloc, asked.keys)?,
        aggs: nodes_of(alloc, asked.aggs)?,
        schema: schema_of(alloc, asked.columns)?,
        arena: arena_of(alloc, asked.exprs)?,
        slice,
        maintain_order,
    })
}
