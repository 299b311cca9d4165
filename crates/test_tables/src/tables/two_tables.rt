//! Two tables of one query in tests, and rows that they take one by one.

ghost use Rattle.std.specs.Prelude.{◌≡◌, ◌+◌, ◌≤◌, IfOk, length, ℕ};
ghost use Rattle.pipe_aggs.specs.CheckedQuery.{input_types};
ghost use Rattle.pipe_aggs.specs.QueryTrees.{query_tree};
ghost use Rattle.pipe_groups.specs.Holds.{HoldFewer};
ghost use Rattle.pipe_model.specs.Output.{key_types};
ghost use Rattle.pipe_spill.specs.SpillRow.{AreRows};
ghost use Rattle.pipe_keyed.specs.Tables.{HoldFewTogether};

use pipe_aggs::CheckedQuery;
use pipe_columns::DataChunk;
use pipe_groups::Eval;
use pipe_inputs::ChunkRows;
use pipe_spill::SpillRow;
use pipe_tables::{AggHashTable, InsertEnd, LentEnd};
use std::alloc::{AllocError, Global};
use std::marker::Model;
use std::test::Fail;

/// Two tables of one query, and rows that are left for either, the last one first. The tables and the
/// rows left are few together, so calls ask for nothing.
#[derive(Drop)]
pub(crate) struct TwoTables {
    rows: Vec<SpillRow>,
    table: AggHashTable,
    other: AggHashTable,
}

impl Model for TwoTables {
    ghost use Rattle.std.specs.Prelude.{◌≡◌, ◌+◌, ◌-◌, ◌≤◌, ◌<◌, ◌^◌, List, length, ℕ};
    ghost use Rattle.pipe_groups.specs.Holds.{HoldFewer};
    ghost use Rattle.pipe_spill.specs.SpillRow.{AreRows};
    ghost use Rattle.pipe_spill.specs.declared.spill_row.SpillRow.{SpillRow};

    ghost Value = { List SpillRow };

    ghost view = { λ a. a.rows.items };

    ghost invariant = { λ a. (n : ℕ) × (n + length a.rows.items < 2 ^ 32)
        × HoldFewer a.table.shape a.table.groups (n + length a.rows.items)
        × HoldFewer a.table.shape a.other.groups (2 ^ 32 - 1 - n)
        × AreRows a.table.shape.key_types a.table.shape.input_types a.rows.items
        × (a.other.shape ≡ a.table.shape) };
}

/// The rows of the first chunk, where they are few, of their own.
fn few_rows(
    alloc: Global,
    query: &CheckedQuery<'_>,
    chunk: &DataChunk,
) -> Result<Vec<SpillRow>, Fail>
    ensures typed { IfOk result (λ rows. AreRows (key_types (query_tree query.now))
        (input_types (query_tree query.now)) rows.items) }
    ensures few { IfOk result (λ rows. length rows.items ≤ 64) }
{
    let index = chunk.chunk_index;
    if index != 0 || !chunk.frame.fits(&query.query().schema) {
        return Err("another chunk".into());
    }
    let seen = ChunkRows::new(alloc, query, index, chunk)?;
    let count = seen.len();
    drop(seen);
    if count > 64 {
        return Err("many rows".into());
    }
    Ok(Eval::new(query).rows(alloc, chunk)?)
}

/// Puts the last of some rows into a table. Where memory is wanting it is left.
fn put_last(table: &mut AggHashTable, rows: &mut Vec<SpillRow>) -> LentEnd
    requires typed { AreRows table.old.shape.key_types table.old.shape.input_types
        rows.old.items }
    requires few { HoldFewer table.old.shape table.old.groups (length rows.old.items) }
    ensures typed { AreRows table.old.shape.key_types table.old.shape.input_types
        rows.new.items }
    ensures shape { table.new.shape ≡ table.old.shape }
    ensures fewer { length rows.new.items ≤ length rows.old.items }
    ensures few { (more : ℕ)
        → HoldFewer table.old.shape table.old.groups (more + length rows.old.items)
        → HoldFewer table.old.shape table.new.groups (more + length rows.new.items) }
{
    let Some(row) = rows.pop() else {
        return LentEnd::Memory;
    };
    match table.insert(row) {
        InsertEnd::Done => LentEnd::Done,
        InsertEnd::Overflow(_) => LentEnd::Overflow,
        InsertEnd::Memory(row) => {
            let _ = rows.push(row);
            LentEnd::Memory
        }
    }
}

/// Makes room in a table for rows.
fn cover(table: &mut AggHashTable, rows: &[SpillRow]) -> Result<(), AllocError>
    ensures shape { table.new.shape ≡ table.old.shape }
    ensures few { (more : ℕ) → HoldFewer table.old.shape table.old.groups more
        → HoldFewer table.old.shape table.new.groups more }
{
    table.reserve(rows)
}

impl TwoTables {
    /// Two empty tables with a limit, and the rows of a chunk.
    pub(crate) fn new(
        alloc: Global,
        query: &CheckedQuery<'_>,
        limit: Option<usize>,
        chunk: &DataChunk,
    ) -> Result<TwoTables, Fail> {
        let rows = few_rows(alloc, query, chunk)?;
        let table = AggHashTable::new(alloc, query, limit)?;
        let Ok(other) = table.split() else {
            drop(rows);
            drop(table);
            return Err("AggHashTable::split wants memory".into());
        };
        Ok(TwoTables { rows, table, other })
    }

    /// Puts the last row that is left into the first table.
    pub(crate) fn put(&mut self) -> LentEnd {
        put_last(&mut self.table, &mut self.rows)
    }

    /// Puts the last row that is left into the second table.
    pub(crate) fn put_other(&mut self) -> LentEnd {
        put_last(&mut self.other, &mut self.rows)
    }

    /// Makes room in the first table for the rows that are left.
    pub(crate) fn reserve(&mut self) -> Result<(), AllocError> {
        cover(&mut self.table, &self.rows)
    }

    /// How many keys the first table holds.
    pub(crate) fn held(&self) -> usize {
        self.table.len()
    }

    /// Both tables, without the rows that are left.
    pub(crate) fn into_tables(self) -> (AggHashTable, AggHashTable)
        ensures shape { result.1.shape ≡ result.0.shape }
        ensures few { HoldFewTogether result.0 result.1 }
    {
        (self.table, self.other)
    }
}
