//! A group-by of two chunks by two workers, which spill to stores in memory: the sum of v by k.
#![tactic(auto)]

use anyhow::Context;
use pipe_aggs::{AExpr, Arena, IRAggExpr, Query};
use pipe_columns::{AnyValue, Column, DataChunk, DataFrame, DataType, Field, Schema, Text};
use pipe_global::OpenGate;
use pipe_group_by::run_group_by;
use pipe_plan::{Limits, SinkKind, SpillAction};
use pipe_run::GroupByOutput;
use pipe_spill::MemoryStore;
use std::alloc::Global;
use std::io::Print;
use std::sync::Wait;
use std::thread::Threads;

/// The sum of v by k.
fn query(alloc: Global) -> anyhow::Result<Query> {
    let mut fields = Vec::new(alloc);
    let mut arena = Arena::new(alloc);
    let mut nodes = Vec::new(alloc);
    for name in ["k", "v"] {
        let (name, dtype) = (Text::new(alloc, name)?, DataType::Int64);
        let column = AExpr::Column(name.try_clone(alloc)?);
        nodes.push(arena.add(column).ok().context("no node")?)?;
        fields.push(Field { name, dtype })?;
    }
    let sum = AExpr::Agg(IRAggExpr::Sum(nodes.pop().context("no value")?));
    let aggs = vec![in alloc; arena.add(sum).ok().context("no node")?]?;
    Ok(Query {
        schema: Schema::new(fields),
        arena,
        keys: nodes,
        aggs,
        slice: None,
        maintain_order: false,
    })
}

/// A chunk of rows.
fn chunk(alloc: Global, rows: &[[i128; 2]]) -> anyhow::Result<DataChunk> {
    let mut columns = Vec::new(alloc);
    for (at, name) in ["k", "v"].into_iter().enumerate() {
        let mut values = Vec::new(alloc);
        for row in rows {
            values.push(AnyValue::Int(row[at % 2]))?;
        }
        let name = Text::new(alloc, name)?;
        columns.push(Column::new(name, DataType::Int64, false, values).context("no column")?)?;
    }
    let frame = DataFrame::new(rows.len(), columns).context("no frame")?;
    Ok(DataChunk {
        chunk_index: 0,
        frame,
    })
}

/// Two chunks of three rows.
fn chunks(alloc: Global) -> anyhow::Result<Vec<DataChunk>> {
    let first = chunk(alloc, &[[1, 5], [2, 6], [3, 1]])?;
    let second = chunk(alloc, &[[1, 7], [2, 2], [4, 3]])?;
    Ok(vec![in alloc; first, second]?)
}

/// What the workers spill: the first dumps once, the second never.
fn actions(alloc: Global) -> anyhow::Result<Vec<Vec<SpillAction>>> {
    Ok(vec![in alloc; vec![in alloc; SpillAction::Dump]?, Vec::new(alloc)]?)
}

/// The run of the query over the chunks.
fn output<H: Threads + Wait + Sync>(rt: &H, alloc: Global) -> anyhow::Result<GroupByOutput> {
    let limits = Limits {
        sink: SinkKind::Generic,
        workers: 2,
        partitions: 1,
        spill_size: 0,
        buffer_size: 1,
        payload_limit: 0,
    };
    let query = query(alloc)?;
    let chunks = chunks(alloc)?;
    let lists = actions(alloc)?;
    let stores = vec![in alloc; MemoryStore::new(alloc, Vec::new(alloc))]?;
    let run = run_group_by(rt, alloc, chunks, &query, &limits, lists, stores, &OpenGate);
    Ok(run.0?)
}

/// Prints the groups.
fn show(rt: &impl Print, output: &GroupByOutput) -> anyhow::Result<()> {
    println!(rt; "{} rows overflowed", output.overflow)?;
    for column in output.frame.columns() {
        println!(rt; "{}: {:?}", column.name().as_str(), column.values())?;
    }
    Ok(())
}

fn main(rt: HostRuntime) -> anyhow::Result<()> {
    let output = output(&rt, rt.alloc())?;
    show(&rt, &output)
}
