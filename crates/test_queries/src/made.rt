//! Arenas, schemas and queries, made out of tables.

use pipe_aggs::Query;
use pipe_columns::{DataType, Field, Schema, Text};
use pipe_exprs::{AExpr, AddError, Arena, IRAggExpr, Node, Operator};
use std::alloc::{AllocError, Global};
use std::test::Fail;

/// An expression as a table has it, which names earlier ones by their places.
#[derive(Clone, Copy)]
pub(crate) enum Given {
    Column(&'static str),
    Plus(usize, usize),
    Alias(usize, &'static str),
    Sum(usize),
    Mean(usize),
    Len,
}

/// The name and the type of a field.
type Typed = (&'static str, DataType);

/// A query as a table has it.
#[derive(Clone, Copy)]
pub(crate) struct Asked {
    pub fields: &'static [Typed],
    pub exprs: &'static [Given],
    pub keys: &'static [usize],
    pub aggs: &'static [usize],
    pub slice: Option<(i64, usize)>,
}

/// A sum, a mean and the number of rows, by the field that is added up.
pub(crate) const THREE_AGGREGATES: Asked = Asked {
    fields: &[("v", DataType::Int8), ("w", DataType::Int16)],
    exprs: &[
        Given::Column("v"),
        Given::Sum(0),
        Given::Alias(1, "s"),
        Given::Len,
        Given::Mean(0),
        Given::Alias(4, "m"),
    ],
    keys: &[0],
    aggs: &[2, 5, 3],
    slice: Some((1, 2)),
};

/// An expression of a table.
fn expr_of(alloc: Global, given: Given) -> Result<AExpr, AllocError> {
    let expr = match given {
        Given::Column(name) => AExpr::Column(Text::new(alloc, name)?),
        Given::Plus(left, right) => AExpr::BinaryExpr {
            left: Node(left),
            op: Operator::Plus,
            right: Node(right),
        },
        Given::Alias(input, name) => AExpr::Alias(Node(input), Text::new(alloc, name)?),
        Given::Sum(input) => AExpr::Agg(IRAggExpr::Sum(Node(input))),
        Given::Mean(input) => AExpr::Agg(IRAggExpr::Mean(Node(input))),
        Given::Len => AExpr::Len,
    };
    Ok(expr)
}

/// Adds an expression of a table.
fn add(alloc: Global, arena: &mut Arena, given: Given) -> Result<(), Fail> {
    match arena.add(expr_of(alloc, given)?) {
        Ok(_) => Ok(()),
        Err(AddError::Memory) => Err(AllocError.into()),
        Err(AddError::NoChild) => Err("no child".into()),
    }
}

/// The arena of a table.
fn arena_of(alloc: Global, exprs: &[Given]) -> Result<Arena, Fail> {
    let mut arena = Arena::new(alloc);
    for given in exprs {
        add(alloc, &mut arena, *given)?;
    }
    Ok(arena)
}

/// Adds the sum of the first expression with itself, then 63 times that of what came last: node 64
/// is the first one times 2^64. Behind it come its sum, and that under a name.
pub(crate) fn add_doubled(alloc: Global, arena: &mut Arena) -> Result<(), Fail> {
    for node in 0..64 {
        add(alloc, arena, Given::Plus(node, node))?;
    }
    add(alloc, arena, Given::Sum(64))?;
    add(alloc, arena, Given::Alias(65, "s"))
}

/// The schema of a table.
fn schema_of(alloc: Global, fields: &[Typed]) -> Result<Schema, AllocError> {
    let mut all = Vec::new(alloc);
    for (name, dtype) in fields {
        let name = Text::new(alloc, name)?;
        all.push(Field {
            name,
            dtype: *dtype,
        })?;
    }
    Ok(Schema::new(all))
}

/// Nodes by their places.
fn nodes_of(alloc: Global, places: &[usize]) -> Result<Vec<Node>, AllocError> {
    let mut nodes = Vec::new(alloc);
    for place in places {
        nodes.push(Node(*place))?;
    }
    Ok(nodes)
}

/// The query of a table.
pub(crate) fn query_of(alloc: Global, asked: &Asked) -> Result<Query, Fail> {
    Ok(Query {
        schema: schema_of(alloc, asked.fields)?,
        arena: arena_of(alloc, asked.exprs)?,
        keys: nodes_of(alloc, asked.keys)?,
        aggs: nodes_of(alloc, asked.aggs)?,
        slice: asked.slice,
        maintain_order: false,
    })
}

/// Whether fields have these names.
pub(crate) fn have_names(fields: &[Field], names: &[&str]) -> bool {
    for (field, name) in fields.iter().zip(names) {
        if field.name.as_str() != *name {
            return false;
        }
    }
    fields.len() == names.len()
}
