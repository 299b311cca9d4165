//! Rounds: each has a table of its own, which holds the keys before any time is taken.

ghost use Rattle.std.specs.Prelude.{◌≡◌, ◌≤◌, ◌<◌, ◌+◌, ◌^◌, All, OnOk, length, ℕ};
ghost use Rattle.pipe_aggs.specs.CheckedQuery.{input_types};
ghost use Rattle.pipe_aggs.specs.QueryTrees.{query_tree};
ghost use Rattle.pipe_groups.specs.Holds.{HoldFewer};
ghost use Rattle.pipe_groups.specs.Shape.{shape_of};
ghost use Rattle.pipe_model.specs.Output.{key_types};
ghost use Rattle.pipe_spill.specs.SpillRow.{AreRows, HasValues};
ghost use Rattle.pipe_waiting.specs.Waiting.{AreWaiting, HaveNoTexts, waiting_rows};

use crate::lent::put_all_lent;
use crate::merged::merge;
use pipe_aggs::CheckedQuery;
use pipe_columns::AnyValue;
use pipe_inputs::ChunkRows;
use pipe_tables::AggHashTable;
use pipe_waiting::WaitingRows;
use std::alloc::Global;
use std::time::{Clock, Instant};

/// What the rows of a chunk cost together, in nanoseconds.
#[derive(Clone, Copy)]
pub(crate) struct Times {
    pub(crate) lent: u128,
    pub(crate) waiting: u128,
}

/// What rows cost that a chunk lends.
fn lent_time(
    rt: &impl Clock,
    table: &mut AggHashTable,
    key: &mut Vec<u8>,
    query: &CheckedQuery<'_>,
    rows: &ChunkRows<'_>,
) -> anyhow::Result<u128>
    requires number { length rows.now < 2 ^ 32 }
    requires typed { All (HasValues (key_types (query_tree query.now))
        (input_types (query_tree query.now))) rows.now }
    requires shape { table.old.shape ≡ shape_of (query_tree query.now) }
    requires few { HoldFewer table.old.shape table.old.groups (length rows.now) }
    ensures shape { OnOk result (table.new.shape ≡ table.old.shape) }
    ensures few { OnOk result ((more : ℕ)
        → HoldFewer table.old.shape table.old.groups (more + length rows.now)
        → HoldFewer table.new.shape table.new.groups more) }
{
    let start = Instant::now(rt)?;
    put_all_lent(table, key, query, rows)?;
    Ok(start.elapsed(rt)?.as_nanos())
}

/// What rows cost that wait.
fn waiting_time(
    rt: &impl Clock,
    table: &mut AggHashTable,
    waiting: &WaitingRows,
    values: &mut [AnyValue],
) -> anyhow::Result<u128>
    requires held { AreWaiting table.old.shape.input_types waiting.now }
    requires plain { HaveNoTexts table.old.shape.input_types }
    requires fit { length values.old ≡ length table.old.shape.input_types }
    requires typed { AreRows table.old.shape.key_types table.old.shape.input_types
        (waiting_rows table.old.shape.input_types waiting.now) }
    requires few { HoldFewer table.old.shape table.old.groups waiting.now.count }
    ensures fits { length values.new ≡ length values.old }
{
    let start = Instant::now(rt)?;
    merge(table, waiting, values)?;
    Ok(start.elapsed(rt)?.as_nanos())
}

/// Both costs, over a table that takes the rows once before.
fn both_times(
    rt: &impl Clock,
    table: &mut AggHashTable,
    key: &mut Vec<u8>,
    query: &CheckedQuery<'_>,
    rows: &ChunkRows<'_>,
    waiting: &WaitingRows,
    values: &mut [AnyValue],
) -> anyhow::Result<Times>
    requires number { length rows.now < 2 ^ 32 }
    requires typed { All (HasValues (key_types (query_tree query.now))
        (input_types (query_tree query.now))) rows.now }
    requires held { AreWaiting (input_types (query_tree query.now)) waiting.now }
    requires wait { AreRows (key_types (query_tree query.now)) (input_types (query_tree query.now))
        (waiting_rows (input_types (query_tree query.now)) waiting.now) }
    requires plain { HaveNoTexts (input_types (query_tree query.now)) }
    requires fit { length values.old ≡ length (input_types (query_tree query.now)) }
    requires shape { table.old.shape ≡ shape_of (query_tree query.now) }
    requires count { waiting.now.count ≡ length rows.now }
    requires few { HoldFewer table.old.shape table.old.groups
        (length rows.now + length rows.now + length rows.now) }
    ensures fits { length values.new ≡ length values.old }
{
    put_all_lent(table, key, query, rows)?;
    let lent = lent_time(rt, table, key, query, rows)?;
    let waiting = waiting_time(rt, table, waiting, values)?;
    Ok(Times { lent, waiting })
}

/// One round: both costs, over a table of its own.
fn round(
    rt: &impl Clock,
    alloc: Global,
    key: &mut Vec<u8>,
    query: &CheckedQuery<'_>,
    rows: &ChunkRows<'_>,
    waiting: &WaitingRows,
    values: &mut [AnyValue],
) -> anyhow::Result<Times>
    requires typed { All (HasValues (key_types (query_tree query.now))
        (input_types (query_tree query.now))) rows.now }
    requires held { AreWaiting (input_types (query_tree query.now)) waiting.now }
    requires wait { AreRows (key_types (query_tree query.now)) (input_types (query_tree query.now))
        (waiting_rows (input_types (query_tree query.now)) waiting.now) }
    requires plain { HaveNoTexts (input_types (query_tree query.now)) }
    requires fit { length values.old ≡ length (input_types (query_tree query.now)) }
    requires count { waiting.now.count ≡ length rows.now }
    requires few { length rows.now ≤ 1000000 }
    ensures fits { length values.new ≡ length values.old }
{
    let mut table = AggHashTable::new(alloc, query, None)?;
    let times = both_times(rt, &mut table, key, query, rows, waiting, values);
    drop(table);
    times
}

/// The least costs of so many rounds, one at least.
pub(crate) fn least_times(
    rt: &impl Clock,
    alloc: Global,
    key: &mut Vec<u8>,
    query: &CheckedQuery<'_>,
    rows: &ChunkRows<'_>,
    waiting: &WaitingRows,
    values: &mut [AnyValue],
    rounds: u32,
) -> anyhow::Result<Times>
    requires typed { All (HasValues (key_types (query_tree query.now))
        (input_types (query_tree query.now))) rows.now }
    requires held { AreWaiting (input_types (query_tree query.now)) waiting.now }
    requires wait { AreRows (key_types (query_tree query.now)) (input_types (query_tree query.now))
        (waiting_rows (input_types (query_tree query.now)) waiting.now) }
    requires plain { HaveNoTexts (input_types (query_tree query.now)) }
    requires fit { length values.old ≡ length (input_types (query_tree query.now)) }
    requires count { waiting.now.count ≡ length rows.now }
    requires few { length rows.now ≤ 1000000 }
{
    let mut least = round(rt, alloc, key, query, rows, waiting, values)?;
    for _round in 1..rounds {
        let times = round(rt, alloc, key, query, rows, waiting, values)?;
        least.lent = least.lent.min(times.lent);
        least.waiting = least.waiting.min(times.waiting);
    }
    Ok(least)
}
