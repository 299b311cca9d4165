//! The sum and the first of v by k and g, and the state of chunks of them.

ghost use Rattle.std.specs.Prelude.{◌<◌, IfOk};
ghost use Rattle.pipe_aggs.specs.QueryTrees.{query_tree};
ghost use Rattle.pipe_states.specs.Fair.{IsStateOf};

use anyhow::Context;
use pipe_aggs::{AExpr, Arena, CheckedQuery, IRAggExpr, Node, Query};
use pipe_columns::{AnyValue, Column, DataChunk, DataFrame, DataType, Field, Schema, Text};
use pipe_saving::save;
use pipe_states::StateFile;
use std::alloc::{AllocError, Global};

/// How many groups there are; each has a row in each chunk.
pub(crate) const GROUPS: u32 = 20_000;

fn added(arena: &mut Arena, expr: AExpr) -> anyhow::Result<Node> {
    Ok(arena.add(expr).ok().context("no node")?)
}

/// Adds an aggregate of v by a name.
fn named_agg(alloc: Global, arena: &mut Arena, agg: IRAggExpr, name: &str) -> anyhow::Result<()> {
    let value = added(arena, AExpr::Agg(agg))?;
    added(arena, AExpr::Alias(value, Text::new(alloc, name)?))?;
    Ok(())
}

/// The columns k, g and v, and the sum s and the first f of v.
fn arena_of(alloc: Global) -> anyhow::Result<Arena> {
    let mut arena = Arena::new(alloc);
    for name in ["k", "g", "v"] {
        added(&mut arena, AExpr::Column(Text::new(alloc, name)?))?;
    }
    named_agg(alloc, &mut arena, IRAggExpr::Sum(Node(2)), "s")?;
    named_agg(alloc, &mut arena, IRAggExpr::First(Node(2)), "f")?;
    Ok(arena)
}

/// The columns k, g and v, of integers.
fn schema_of(alloc: Global) -> Result<Schema, AllocError> {
    let mut fields = Vec::new(alloc);
    for name in ["k", "g", "v"] {
        let name = Text::new(alloc, name)?;
        fields.push(Field {
            name,
            dtype: DataType::Int64,
        })?;
    }
    Ok(Schema::new(fields))
}

/// The sum and the first of v by k and g.
pub(crate) fn query_of(alloc: Global) -> anyhow::Result<Query> {
    Ok(Query {
        schema: schema_of(alloc)?,
        arena: arena_of(alloc)?,
        keys: vec![in alloc; Node(0), Node(1)]?,
        aggs: vec![in alloc; Node(4), Node(6)]?,
        slice: None,
        maintain_order: false,
    })
}

/// A column of what the numbers of groups come to, divided by a number and in a range. The groups
/// come in no order.
fn column_of(alloc: Global, name: &str, by: u32, range: u32) -> anyhow::Result<Column>
    requires by { 0 < by }
    requires range { 0 < range }
{
    let mut values = Vec::new(alloc);
    for row in 0..GROUPS {
        let group = row * 7919 % GROUPS;
        values.push(AnyValue::Int((group / by % range) as i128))?;
    }
    let name = Text::new(alloc, name)?;
    Ok(Column::new(name, DataType::Int64, false, values).context("no column")?)
}

/// A chunk: a row for each group, whose number is v.
fn chunk_of(alloc: Global) -> anyhow::Result<DataChunk> {
    let mut columns = Vec::new(alloc);
    columns.push(column_of(alloc, "k", 100, GROUPS)?)?;
    columns.push(column_of(alloc, "g", 1, 100)?)?;
    columns.push(column_of(alloc, "v", 1, GROUPS)?)?;
    Ok(DataChunk {
        chunk_index: 0,
        frame: DataFrame::new(GROUPS as usize, columns).context("no frame")?,
    })
}

/// The state of two equal chunks.
pub(crate) fn state_of(alloc: Global, query: &CheckedQuery<'_>) -> anyhow::Result<StateFile>
    ensures { IfOk result (IsStateOf (query_tree query.now)) }
{
    let chunks = vec![in alloc; chunk_of(alloc)?, chunk_of(alloc)?]?;
    Ok(save(alloc, query, 0, &chunks)?)
}
