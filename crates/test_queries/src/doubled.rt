//! An arena of 64 nodes, each using the one before it twice: a call over it ends only where it sees
//! each node once.

ghost use Rattle.std.specs.Prelude.{◌≡◌, ◌<◌, IfOk, is_some, length, true};
ghost use Rattle.pipe_columns.specs.Frame.{fields_of};
ghost use Rattle.pipe_exprs.specs.Trees.{tree};
ghost use Rattle.pipe_model.specs.Typing.{is_row_wise, type_of};

use crate::made::{Asked, Given, add_doubled, query_of};
use pipe_aggs::{Query, TypeFault, can_convert_to_hash_agg, to_field};
use pipe_columns::{AnyValue, Column, DataChunk, DataFrame, DataType, Schema, Text};
use pipe_exprs::{Arena, Node, PipedExpr, facts_at, node_facts};
use std::alloc::{AllocError, Global};
use std::test::Fail;

/// The sum of v times 2^64, by that product, in the order of first rows.
fn doubled_query(alloc: Global) -> Result<Query, Fail> {
    let mut query = query_of(
        alloc,
        &Asked {
            fields: &[("v", DataType::Int64)],
            exprs: &[Given::Column("v")],
            keys: &[64],
            aggs: &[66],
            slice: None,
        },
    )?;
    add_doubled(alloc, &mut query.arena)?;
    query.maintain_order = true;
    Ok(query)
}

/// A chunk with one column `v` of Int64: 1 and 2.
fn chunk_of(alloc: Global) -> Result<DataChunk, Fail> {
    let values = vec![in alloc; AnyValue::Int(1), AnyValue::Int(2)]?;
    let name = Text::new(alloc, "v")?;
    let column = Column::new(name, DataType::Int64, true, values).ok_or("no column")?;
    let columns = vec![in alloc; column]?;
    let frame = DataFrame::new(2, columns).ok_or("no frame")?;
    Ok(DataChunk {
        chunk_index: 0,
        frame,
    })
}

/// Whether a node is there, with a type over a schema and a value in each row.
fn is_evaluable(
    alloc: Global,
    arena: &Arena,
    node: Node,
    schema: &Schema,
) -> Result<bool, AllocError>
    ensures there { IfOk result (λ is. is ≡ true → node.0 < length arena.now) }
    ensures row_wise { IfOk result (λ is. is ≡ true → is_row_wise (tree arena.now node) ≡ true) }
    ensures typed { IfOk result (λ is. is ≡ true
        → is_some (type_of (tree arena.now node) schema.now) ≡ true) }
{
    let known = node_facts(alloc, arena, schema.fields())?;
    let facts = facts_at(&known, node);
    Ok(node.0 < arena.len() && facts.row_wise && facts.dtype.is_some())
}

/// Whether a column is named v, and its values are two numbers.
fn are_numbers(column: &Column, numbers: [i128; 2]) -> bool {
    match (column.values().first(), column.values().last()) {
        (Some(AnyValue::Int(first)), Some(AnyValue::Int(last))) => {
            column.name().as_str() == "v"
                && column.values().len() == 2
                && [*first, *last] == numbers
        }
        _ => false,
    }
}

/// Whether the column of an expression has these numbers, and they are its values alone too.
fn has_numbers(
    alloc: Global,
    arena: &Arena,
    expr: &PipedExpr,
    chunk: &DataChunk,
    numbers: [i128; 2],
) -> Result<bool, AllocError>
    requires in_arena { expr.now.node.0 < length arena.now }
    requires row_wise { is_row_wise (tree arena.now expr.now.node) ≡ true }
    requires typed { is_some (type_of (tree arena.now expr.now.node)
        (fields_of chunk.now.frame.columns)) ≡ true }
{
    let column = expr.evaluate(alloc, arena, chunk)?;
    let values = expr.values(alloc, arena, chunk)?;
    Ok(are_numbers(&column, numbers) && values.as_slice() == column.values())
}

/// Whether a node is evaluated over a chunk as these numbers.
fn is_evaluated(
    alloc: Global,
    query: &Query,
    chunk: &DataChunk,
    node: Node,
    numbers: [i128; 2],
) -> Result<bool, AllocError> {
    if !chunk.frame.fits(&query.schema)
        || !is_evaluable(alloc, &query.arena, node, &query.schema)?
    {
        return Ok(false);
    }
    has_numbers(alloc, &query.arena, &PipedExpr { node }, chunk, numbers)
}

/// Whether the products by 2^62 and by 2^64 are evaluated.
fn are_products(alloc: Global, query: &Query) -> Result<bool, Fail> {
    let chunk = chunk_of(alloc)?;
    let large = [4611686018427387904, -9223372036854775808];
    Ok(
        is_evaluated(alloc, query, &chunk, Node(62), large)?
            && is_evaluated(alloc, query, &chunk, Node(64), [0, 0])?,
    )
}

/// Whether the last product has a field, which is this.
fn has_field(alloc: Global, query: &Query, name: &str, dtype: DataType) -> Result<bool, Fail> {
    if query.arena.len() <= 64 {
        return Ok(false);
    }
    match to_field(alloc, Node(64), &query.arena, &query.schema) {
        Ok(field) => Ok(field.name.as_str() == name && field.dtype == dtype),
        Err(TypeFault::Memory) => Err(AllocError.into()),
        Err(_) => Ok(false),
    }
}

/// Whether the last product has a field, its sum is kept, and the query is without fault.
fn is_doubled(alloc: Global, query: &Query) -> Result<bool, Fail> {
    Ok(
        query.arena.len() == 67
            && has_field(alloc, query, "v", DataType::Int64)?
            && can_convert_to_hash_agg(alloc, Node(65), &query.arena, &query.schema)?
            && query.check(alloc).is_ok(),
    )
}

#[test]
fn shared_nodes_once(rt: HostRuntime) -> Result<(), Fail> {
    let query = doubled_query(rt.alloc())?;
    assert!(rt; are_products(rt.alloc(), &query)? && is_doubled(rt.alloc(), &query)?);
    Ok(())
}
