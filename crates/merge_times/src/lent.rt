//! Rows that a chunk lends to a table.

ghost use Rattle.std.specs.Prelude.{◌≡◌, ◌+◌, ◌<◌, ◌^◌, All, OnOk, length, ℕ};
ghost use Rattle.pipe_aggs.specs.CheckedQuery.{input_types};
ghost use Rattle.pipe_aggs.specs.QueryTrees.{query_tree};
ghost use Rattle.pipe_groups.specs.Holds.{HoldFewer};
ghost use Rattle.pipe_groups.specs.Shape.{shape_of};
ghost use Rattle.pipe_keyed.specs.Tables.{TakesOne};
ghost use Rattle.pipe_model.specs.Output.{key_types};
ghost use Rattle.pipe_spill.specs.SpillRow.{HasValues};

use pipe_aggs::CheckedQuery;
use pipe_groups::encode_row;
use pipe_inputs::ChunkRows;
use pipe_tables::{AggHashTable, LentEnd};
use std::alloc::AllocError;

/// Takes a row of a chunk in, and tells how that ended.
#[inline(always)]
fn put_lent(
    table: &mut AggHashTable,
    key: &mut Vec<u8>,
    query: &CheckedQuery<'_>,
    rows: &ChunkRows<'_>,
    row: usize,
) -> Result<LentEnd, AllocError>
    requires there { row < length rows.now }
    requires number { row < 2 ^ 32 }
    requires typed { All (HasValues (key_types (query_tree query.now))
        (input_types (query_tree query.now))) rows.now }
    requires shape { table.old.shape ≡ shape_of (query_tree query.now) }
    requires few { TakesOne table.old }
    ensures shape { OnOk result (table.new.shape ≡ table.old.shape) }
    ensures few { OnOk result ((more : ℕ)
        → HoldFewer table.old.shape table.old.groups (more + 1)
        → HoldFewer table.new.shape table.new.groups more) }
{
    encode_row(key, rows, row, query.key_types())?;
    Ok(table.insert_lent(key, rows, row))
}

/// Takes the rows of a chunk in. A table without a limit refuses none where there is memory.
pub(crate) fn put_all_lent(
    table: &mut AggHashTable,
    key: &mut Vec<u8>,
    query: &CheckedQuery<'_>,
    rows: &ChunkRows<'_>,
) -> Result<(), AllocError>
    requires number { length rows.now < 2 ^ 32 }
    requires typed { All (HasValues (key_types (query_tree query.now))
        (input_types (query_tree query.now))) rows.now }
    requires shape { table.old.shape ≡ shape_of (query_tree query.now) }
    requires few { HoldFewer table.old.shape table.old.groups (length rows.now) }
    ensures shape { OnOk result (table.new.shape ≡ table.old.shape) }
    ensures few { OnOk result ((more : ℕ)
        → HoldFewer table.old.shape table.old.groups (more + length rows.now)
        → HoldFewer table.new.shape table.new.groups more) }
{
    for row in 0..rows.len() {
        if put_lent(table, key, query, rows, row)? != LentEnd::Done {
            return Err(AllocError);
        }
    }
    Ok(())
}
