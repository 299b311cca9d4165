//! A chunk that a table takes at once: room for all of its keys is made first.

ghost use Rattle.std.specs.Prelude.{◌≡◌, ◌<◌, ◌≤◌, ◌^◌, [], ℕ, OnErr, OnOk, true};
ghost use Rattle.pipe_columns.specs.Frame.{FitsSchema, HoldsTypes, value_at};
ghost use Rattle.pipe_aggs.specs.QueryTrees.{query_tree};
ghost use Rattle.pipe_groups.specs.GroupRuns.{keep_no_text};
ghost use Rattle.pipe_groups.specs.Holds.{HoldFewer};
ghost use Rattle.pipe_groups.specs.Shape.{shape_of};
ghost use Rattle.pipe_model.specs.Output.{key_types};
ghost use Rattle.pipe_keyed.specs.TakenRows.{TookFirstRows};
ghost use Rattle.pipe_sinks.specs.ChunkTaking.{AreGivenKeys, AreKeysOf, TakesRows, TookChunk};
ghost use Rattle.pipe_sinks.specs.KeyCuts.{AreCut};
ghost use Rattle.pipe_sinks.specs.SoleKeys.{IsSole};
ghost use Rattle.pipe_sinks.specs.Alike.{HoldAlike};

use crate::key_table::KeyTable;
use pipe_aggs::CheckedQuery;
use pipe_columns::{AnyValue, DataChunk};
use pipe_inputs::ChunkRows;
use std::alloc::{AllocError, Global};

/// For so many runs at most there is room at once.
const FEW_RUNS: usize = 1024;

/// Rows of one key that follow one another: the index of its group, and where they end.
#[derive(Clone, Copy, Debug)]
pub(crate) struct KeyRun {
    pub(crate) group: usize,
    pub(crate) end: usize,
}

/// Whether two values are one number, text or null.
fn is_same(own: &AnyValue, other: &AnyValue) -> bool
    ensures { result ≡ true → own.now ≡ other.now }
{
    match (own, other) {
        (AnyValue::Int(number), AnyValue::Int(next)) => number == next,
        (AnyValue::Text(text), AnyValue::Text(next)) => text.as_bytes() == next.as_bytes(),
        (AnyValue::Null, AnyValue::Null) => true,
        _ => false,
    }
}

/// Whether two keys are the same, where both are there.
fn are_same(keys: &[AnyValue], row: usize, next: usize) -> bool
    ensures { result ≡ true → value_at keys.now row ≡ value_at keys.now next }
{
    match (keys.get(row), keys.get(next)) {
        (Some(own), Some(other)) => is_same(own, other),
        _ => false,
    }
}

/// Where the run of the key of a row ends: a run of nulls is one too.
fn run_end(keys: &[AnyValue], row: usize, height: usize) -> usize
    requires { row < height }
    ensures some { row < result }
    ensures within { result ≤ height }
    ensures same { (n : ℕ) → row ≤ n → n < result → value_at keys.now n ≡ value_at keys.now row }
{
    let mut end = row + 1;
    while end < height && are_same(keys, row, end) {
        end += 1;
    }
    end
}

/// Makes room for the keys of a chunk's rows, run by run of equal keys, and notes the runs. No row comes
/// in.
fn cover_runs(
    table: &mut KeyTable,
    key: &mut Vec<u8>,
    query: &CheckedQuery<'_>,
    keys: &[AnyValue],
    rows: &ChunkRows<'_>,
    chunk: &DataChunk,
    runs: &mut Vec<KeyRun>,
) -> Result<(), AllocError>
    requires takes { TakesRows query.now chunk.now rows.now table.old }
    requires keys { AreKeysOf rows.now keys.now }
    requires none { runs.old.items ≡ [] }
    ensures alike { HoldAlike table.old table.new }
    ensures cut { OnOk result
        (AreCut table.new rows.now 0 runs.new.items chunk.now.frame.height) }
{
    let height = chunk.frame.height();
    let types = query.key_types();
    let mut row = 0;
    while row < height {
        let end = run_end(keys, row, height);
        let group = table.cover(key, types, rows, row)?;
        runs.push(KeyRun { group, end })?;
        row = end;
    }
    Ok(())
}

/// The same, with the values of the keys where they are given, and else with those that the rows lend.
fn cover_given(
    table: &mut KeyTable,
    key: &mut Vec<u8>,
    query: &CheckedQuery<'_>,
    keys: Option<&[AnyValue]>,
    rows: &ChunkRows<'_>,
    chunk: &DataChunk,
    runs: &mut Vec<KeyRun>,
) -> Result<(), AllocError>
    requires takes { TakesRows query.now chunk.now rows.now table.old }
    requires keys { AreGivenKeys (query_tree query.now) chunk.now keys }
    requires none { runs.old.items ≡ [] }
    ensures alike { HoldAlike table.old table.new }
    ensures cut { OnOk result
        (AreCut table.new rows.now 0 runs.new.items chunk.now.frame.height) }
{
    match keys {
        Some(keys) => {
            return cover_runs(table, key, query, keys, rows, chunk, runs);
        }
        None => {
            return cover_runs(table, key, query, rows.key_values(0), rows, chunk, runs);
        }
    }
}

/// Feeds runs to the groups of their keys, of which none keeps a text. It takes no memory.
fn feed_runs(
    table: &mut KeyTable,
    query: &CheckedQuery<'_>,
    rows: &ChunkRows<'_>,
    runs: &[KeyRun],
    chunk: &DataChunk,
)
    requires takes { TakesRows query.now chunk.now rows.now table.old }
    requires plain { keep_no_text table.old.shape.prototypes table.old.shape.input_types ≡ true }
    requires cut { AreCut table.old rows.now 0 runs.now chunk.now.frame.height }
    ensures took { TookFirstRows (query_tree query.now) chunk.now.chunk_index chunk.now.frame
        chunk.now.frame.height table.old table.new }
{
    let mut row = 0;
    for run in runs {
        table.feed_run(run.group, rows, row, run.end - row);
        row = run.end;
    }
}

/// Puts the rows of a chunk into a table that keeps no text, or none of them. The values of their keys
/// may be given.
pub(crate) fn add_at_once(
    alloc: Global,
    table: &mut KeyTable,
    key: &mut Vec<u8>,
    query: &CheckedQuery<'_>,
    keys: Option<&[AnyValue]>,
    index: u32,
    chunk: &DataChunk,
) -> Result<(), AllocError>
    requires index { index ≡ chunk.now.chunk_index }
    requires fits { FitsSchema query.now.schema chunk.now.frame }
    requires height { chunk.now.frame.height < 2 ^ 32 }
    requires shape { table.old.shape ≡ shape_of (query_tree query.now) }
    requires few { HoldFewer table.old.shape table.old.groups chunk.now.frame.height }
    requires sole { IsSole (key_types (query_tree query.now)) }
    requires plain { keep_no_text table.old.shape.prototypes table.old.shape.input_types ≡ true }
    requires keys { AreGivenKeys (query_tree query.now) chunk.now keys }
    ensures took { OnOk result
        (TookChunk (query_tree query.now) chunk.now table.old table.new) }
    ensures alike { OnErr result (HoldAlike table.old table.new) }
    ensures types { HoldsTypes chunk.now.frame }
{
    let mut runs = Vec::with_capacity(alloc, chunk.frame.height().min(FEW_RUNS))?;
    let rows = ChunkRows::new(alloc, query, index, chunk)?;
    cover_given(table, key, query, keys, &rows, chunk, &mut runs)?;
    feed_runs(table, query, &rows, &runs, chunk);
    Ok(())
}
