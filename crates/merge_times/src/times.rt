//! What the rows of a chunk cost.

ghost use Rattle.std.specs.Prelude.{◌≤◌, All, length};
ghost use Rattle.pipe_aggs.specs.CheckedQuery.{input_types};
ghost use Rattle.pipe_aggs.specs.QueryTrees.{query_tree};
ghost use Rattle.pipe_model.specs.Output.{key_types};
ghost use Rattle.pipe_spill.specs.SpillRow.{HasValues};

use crate::rounds::{Times, least_times};
use crate::waits::{have_no_texts, push_all, values_for};
use anyhow::Context;
use pipe_aggs::{CheckedQuery, Query};
use pipe_columns::DataChunk;
use pipe_inputs::ChunkRows;
use pipe_waiting::WaitingRows;
use std::alloc::Global;
use std::time::Clock;

/// What the rows of a chunk cost.
fn times_of_rows(
    rt: &impl Clock,
    alloc: Global,
    query: &CheckedQuery<'_>,
    rows: &ChunkRows<'_>,
    rounds: u32,
) -> anyhow::Result<Times>
    requires typed { All (HasValues (key_types (query_tree query.now))
        (input_types (query_tree query.now))) rows.now }
    requires few { length rows.now ≤ 1000000 }
{
    let types = query.input_types();
    if !have_no_texts(types) {
        return None.context("texts");
    }
    let mut values = values_for(alloc, types.len())?;
    let mut key = Vec::new(alloc);
    let mut waiting = WaitingRows::new(alloc);
    push_all(&mut waiting, &mut key, query, rows)?;
    least_times(
        rt,
        alloc,
        &mut key,
        query,
        rows,
        &waiting,
        &mut values,
        rounds,
    )
}

/// What the rows of a chunk cost, where it has the columns of the query.
fn times_of_chunk(
    rt: &impl Clock,
    alloc: Global,
    query: &CheckedQuery<'_>,
    chunk: &DataChunk,
    rounds: u32,
) -> anyhow::Result<Times> {
    let height = chunk.frame.height();
    if height > 1_000_000 || !chunk.frame.fits(&query.query().schema) {
        return None.context("another chunk");
    }
    let rows = ChunkRows::new(alloc, query, 0, chunk)?;
    times_of_rows(rt, alloc, query, &rows, rounds)
}

/// What the rows of a chunk cost, where the query has no fault.
pub(crate) fn times_of_query(
    rt: &impl Clock,
    alloc: Global,
    query: &Query,
    chunk: &DataChunk,
    rounds: u32,
) -> anyhow::Result<Times> {
    match query.check(alloc) {
        Ok(checked) => times_of_chunk(rt, alloc, &checked, chunk, rounds),
        Err(_) => None.context("a query with a fault"),
    }
}
