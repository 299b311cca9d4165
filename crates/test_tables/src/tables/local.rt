//! A local table that holds one key.

ghost use Rattle.std.specs.Prelude.{◌≡◌, ◌<◌, ◌≤◌, ◌^◌, All, IfOk, OnErr, OnOk, length, true};
ghost use Rattle.pipe_aggs.specs.CheckedQuery.{input_types};
ghost use Rattle.pipe_aggs.specs.QueryTrees.{query_tree};
ghost use Rattle.pipe_columns.specs.Key.{code};
ghost use Rattle.pipe_inputs.specs.ChunkRows.{row_at};
ghost use Rattle.pipe_plan.specs.Run.{AreLimits, is_generic};
ghost use Rattle.pipe_groups.specs.Shape.{shape_of};
ghost use Rattle.pipe_model.specs.Output.{key_types};
ghost use Rattle.pipe_spill.specs.SpillRow.{HasValues, IsRow, spilled};
ghost use Rattle.pipe_tables.specs.Buffers.{is_taken_lent, with_none};
ghost use Rattle.pipe_tables.specs.LocalTable.{NoneWaits, with_buffers, local_with_row};
ghost use Rattle.pipe_keyed.specs.Tables.{TakesOne};

use crate::asked::{chunk_of, has_numbers, has_texts, numbers, query_of, texts};
use crate::tables::given::given;
use pipe_aggs::{CheckedQuery, Query};
use pipe_columns::{DataChunk, DataFrame, DataType};
use pipe_groups::encode_row;
use pipe_inputs::ChunkRows;
use pipe_plan::{Limits, SinkKind};
use pipe_spill::SpillPayload;
use pipe_tables::{AggHashTable, LentLocalEnd, ThreadLocalTable};
use std::alloc::{AllocError, Global};
use std::test::Fail;

/// The types of the columns.
const TYPES: [DataType; 2] = [DataType::Int64, DataType::String];

/// Rows of the keys 1, 2, 1, each with a text.
fn rows_with_texts(alloc: Global) -> Result<DataChunk, Fail> {
    let keys = numbers(alloc, &[1, 2, 1])?;
    chunk_of(alloc, TYPES, false, keys, texts(alloc, &["p", "q", "r"])?)
}

/// One partition, and one key that is held.
fn limits_of(buffer_size: usize) -> Limits
    requires { 0 < buffer_size }
    ensures limits { AreLimits result }
    ensures generic { is_generic result.sink ≡ true }
{
    Limits {
        sink: SinkKind::Generic,
        workers: 1,
        partitions: 1,
        spill_size: 0,
        buffer_size,
        payload_limit: 0,
    }
}

/// Takes a row of a chunk in, again where memory was wanting.
fn insert(
    table: &mut ThreadLocalTable,
    key: &[u8],
    rows: &ChunkRows<'_>,
    row: usize,
) -> LentLocalEnd
    requires there { row < length rows.now }
    requires placed { row < 2 ^ 32 }
    requires code { key.now ≡ code table.old.table.shape.key_types (row_at rows.now row).key }
    requires typed { IsRow table.old.table.shape.key_types table.old.table.shape.input_types
        (spilled table.old.table.shape.key_types (row_at rows.now row)) }
    requires few { TakesOne table.old.table }
    ensures { is_taken_lent result ≡ true → table.new
        ≡ local_with_row (spilled table.old.table.shape.key_types (row_at rows.now row)) table.old }
{
    match table.insert_lent(key, rows, row) {
        LentLocalEnd::Memory => table.insert_lent(key, rows, row),
        end => end,
    }
}

/// Takes a row of a chunk in, and notes how many rows left.
fn take(
    table: &mut ThreadLocalTable,
    key: &mut Vec<u8>,
    query: &CheckedQuery<'_>,
    rows: &ChunkRows<'_>,
    row: usize,
    left: &mut Vec<usize>,
) -> Result<(), Fail>
    requires there { row < length rows.now }
    requires number { row < 2 ^ 32 }
    requires typed { All (HasValues (key_types (query_tree query.now))
        (input_types (query_tree query.now))) rows.now }
    requires shape { table.old.table.shape ≡ shape_of (query_tree query.now) }
    requires few { TakesOne table.old.table }
    ensures { OnOk result (table.new
        ≡ local_with_row (spilled (key_types (query_tree query.now)) (row_at rows.now row)) table.old) }
{
    encode_row(key, rows, row, query.key_types())?;
    match insert(table, key, rows, row) {
        LentLocalEnd::Done => Ok(left.push(0)?),
        LentLocalEnd::Payload(_, payload) => {
            let count = payload.rows.len();
            drop(payload);
            Ok(left.push(count)?)
        }
        LentLocalEnd::Memory => Err("out of memory".into()),
    }
}

/// A local table that takes rows. How many rows left at each goes into a list.
fn fed_rows(
    alloc: Global,
    query: &CheckedQuery<'_>,
    limits: &Limits,
    rows: &ChunkRows<'_>,
    left: &mut Vec<usize>,
) -> Result<ThreadLocalTable, Fail>
    requires limits { AreLimits limits.now }
    requires generic { is_generic limits.now.sink ≡ true }
    requires typed { All (HasValues (key_types (query_tree query.now))
        (input_types (query_tree query.now))) rows.now }
    requires few { length rows.now ≤ 1000 }
    ensures buffers { IfOk result (λ t. length t.buffers.rows ≡ limits.now.partitions) }
    ensures room { IfOk result (λ t. TakesOne t.table) }
{
    // Called for what its clauses say.
    let _query = query.query();
    let mut table = ThreadLocalTable::new(
        alloc,
        query,
        limits.partitions,
        limits.spill_size,
        limits.buffer_size,
    )?;
    let mut key = Vec::new(alloc);
    for row in 0..rows.len() {
        match take(&mut table, &mut key, query, rows, row, left) {
            Ok(()) => {}
            Err(fail) => {
                drop(table);
                return Err(fail);
            }
        }
    }
    Ok(table)
}

/// A local table that takes the rows of a chunk. How many rows left at each goes into a list.
fn fed(
    alloc: Global,
    query: &CheckedQuery<'_>,
    limits: &Limits,
    chunk: &DataChunk,
    left: &mut Vec<usize>,
) -> Result<ThreadLocalTable, Fail>
    requires limits { AreLimits limits.now }
    requires generic { is_generic limits.now.sink ≡ true }
    ensures buffers { IfOk result (λ t. length t.buffers.rows ≡ limits.now.partitions) }
    ensures room { IfOk result (λ t. TakesOne t.table) }
{
    let height = chunk.frame.height();
    if height > 1000 || !chunk.frame.fits(&query.query().schema) {
        return Err("another chunk".into());
    }
    let rows = ChunkRows::new(alloc, query, 0, chunk)?;
    let table = fed_rows(alloc, query, limits, &rows, left);
    drop(rows);
    table
}

/// What waits in a local table, asked for again where memory was wanting.
fn all_spilled(table: &mut ThreadLocalTable) -> Result<Vec<(usize, SpillPayload)>, AllocError>
    ensures ok { OnOk result
        (table.new ≡ with_buffers (with_none table.old.buffers) table.old) }
    ensures err { OnErr result (table.new ≡ table.old) }
{
    match table.get_all_spilled() {
        Ok(spilled) => Ok(spilled),
        Err(AllocError) => table.get_all_spilled(),
    }
}

/// Makes a local table, in which nothing waits, take in another one of no rows.
fn take_none(table: &mut ThreadLocalTable) -> Result<(), AllocError>
    requires none_waits { NoneWaits table.old }
    requires few { TakesOne table.old.table }
    ensures { table.new.buffers ≡ table.old.buffers }
{
    let mut other = table.split()?;
    let combined = table.combine(&mut other);
    drop(other);
    combined
}

/// Whether the row of 2, row 1 of the chunk, alone waited in a local table of one partition.
fn row_waited(table: &mut ThreadLocalTable) -> Result<bool, AllocError>
    ensures ok { OnOk result
        (table.new ≡ with_buffers (with_none table.old.buffers) table.old) }
    ensures err { OnErr result (table.new ≡ table.old) }
{
    let spilled = all_spilled(table)?;
    if spilled.len() != 1 {
        return Ok(false);
    }
    let (partition, payload) = &spilled[0];
    Ok(*partition == 0 && payload.rows.len() == 1 && payload.rows[0].place.row == 1)
}

/// Whether the row of 2 alone waited in a local table, which then takes in another one of no rows.
fn emptied(table: &mut ThreadLocalTable) -> Result<bool, AllocError>
    requires { TakesOne table.old.table }
    ensures { length table.new.buffers.rows ≡ length table.old.buffers.rows }
{
    let waited = row_waited(table)?;
    take_none(table)?;
    Ok(waited)
}

/// Whether a local table gives nothing.
fn gives_none(table: &mut ThreadLocalTable) -> Result<bool, AllocError> {
    Ok(table.finalize(&mut None)?.is_none())
}

/// Whether what waits is the row of 2, and none waits then.
fn is_emptied(table: &mut ThreadLocalTable) -> Result<bool, AllocError>
    requires buffers { 0 < length table.old.buffers.rows }
    requires room { TakesOne table.old.table }
{
    Ok(table.waiting(0) == 1 && emptied(table)? && table.waiting(0) == 0)
}

/// Whether a frame has the two rows of 1, with the first and the last text.
fn are_ones(frame: &DataFrame) -> bool {
    frame.columns().len() == 4
        && has_numbers(frame, 0, &[1])
        && has_texts(frame, 1, &["p"])
        && has_texts(frame, 2, &["r"])
        && has_numbers(frame, 3, &[2])
}

/// Whether a table holds the two rows of 1.
fn has_ones(table: &mut AggHashTable) -> Result<bool, AllocError> {
    let frame = given(table, &mut None)?;
    Ok(are_ones(&frame))
}

/// Whether the row of 2 waits in a local table, which gives nothing itself, and those of 1 are held.
fn holds_ones(mut table: ThreadLocalTable) -> Result<bool, AllocError>
    requires buffers { 0 < length table.buffers.rows }
    requires room { TakesOne table.table }
{
    let emptied = is_emptied(&mut table);
    let none = gives_none(&mut table);
    let mut held = table.into_inner_map();
    let ones = has_ones(&mut held);
    drop(held);
    Ok(emptied? && none? && ones?)
}

/// Whether no row leaves a local table of the rows of a chunk, the row of 2 waits, and those of 1 are held.
fn waits_over(alloc: Global, query: &CheckedQuery<'_>, chunk: &DataChunk) -> Result<bool, Fail> {
    let mut left = Vec::new(alloc);
    let table = fed(alloc, query, &limits_of(2), chunk, &mut left)?;
    let stay = left.as_slice() == [0, 0, 0].as_slice();
    drop(left);
    Ok(holds_ones(table)? && stay)
}

fn waits_of_query(alloc: Global, query: &Query) -> Result<bool, Fail> {
    let chunk = rows_with_texts(alloc)?;
    match query.check(alloc) {
        Ok(checked) => waits_over(alloc, &checked, &chunk),
        Err(_) => Err("Query::check wants memory".into()),
    }
}

/// Whether the row of 2 waits in a local table.
pub(crate) fn waits(alloc: Global) -> Result<bool, Fail> {
    let query = query_of(alloc, TYPES, 1, true)?;
    let waits = waits_of_query(alloc, &query);
    drop(query);
    waits
}
