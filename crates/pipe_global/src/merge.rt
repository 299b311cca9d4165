//! Rows that are owned are moved into a table.

ghost use Rattle.std.specs.Prelude.{◌≡◌, ◌∷◌, [], IfOk, OnOk};
ghost use Rattle.pipe_spill.specs.SpillRow.{joined_rows};
ghost use Rattle.pipe_global.specs.Moving.{AreCovered, CanTake, KeepsCovered, TookRows};
ghost use Rattle.pipe_global.specs.Refused.{HoldsSame};
ghost use Rattle.pipe_global.specs.Waits.{AllWait, payloads_read};

use pipe_columns::DataType;
use pipe_spill::{SpillPayload, SpillRow};
use pipe_tables::{AggHashTable, InsertEnd};
use pipe_waiting::{WaitingRows, own_rows};
use std::alloc::{AllocError, Global};

/// The payloads that wait, each row of which is owned.
pub(crate) fn own_waiting(
    alloc: Global,
    waiting: &[WaitingRows],
    types: &[DataType],
) -> Result<Vec<SpillPayload>, AllocError>
    requires { AllWait types.now waiting.now }
    ensures { IfOk result (λ v. v.items ≡ payloads_read types.now waiting.now) }
{
    let mut payloads = Vec::with_capacity(alloc, waiting.len())?;
    for waits in waiting {
        let rows = own_rows(alloc, waits.lend(), types)?;
        payloads.push_reserved(SpillPayload { rows });
    }
    Ok(payloads)
}

/// Takes room for the keys of payloads. A refusal leaves the room of some of them.
pub(crate) fn reserve_payloads(
    table: &mut AggHashTable,
    waiting: &[SpillPayload],
) -> Result<(), AllocError>
    ensures same { HoldsSame table.old table.new }
    ensures covered { OnOk result (AreCovered table.new.groups (joined_rows waiting.now)) }
{
    for payload in waiting {
        table.reserve(&payload.rows)?;
    }
    Ok(())
}

/// Moves a row in, for whose key there is room.
fn put_row(table: &mut AggHashTable, row: SpillRow)
    requires { CanTake table.old (row ∷ []) }
    ensures taken { TookRows table.old table.new (row ∷ []) }
    ensures covered { KeepsCovered table.old.groups table.new.groups }
{
    match table.insert(row) {
        InsertEnd::Done => {}
        InsertEnd::Overflow(_) => unreachable!(),
        InsertEnd::Memory(_) => unreachable!(),
    }
}

/// Takes room for the keys of rows.
pub(crate) fn reserve_rows(table: &mut AggHashTable, rows: &[SpillRow]) -> Result<(), AllocError>
    ensures same { HoldsSame table.old table.new }
    ensures covered { OnOk result (AreCovered table.new.groups rows.now) }
{
    table.reserve(rows)?;
    Ok(())
}

/// Moves rows in, for whose keys there is room.
pub(crate) fn put_rows(table: &mut AggHashTable, rows: Vec<SpillRow>)
    requires { CanTake table.old rows.items }
    ensures taken { TookRows table.old table.new rows.items }
    ensures covered { KeepsCovered table.old.groups table.new.groups }
{
    for row in rows {
        put_row(table, row);
    }
}

/// Moves the rows of payloads in, for whose keys there is room.
pub(crate) fn put_payloads(table: &mut AggHashTable, waiting: Vec<SpillPayload>)
    requires { CanTake table.old (joined_rows waiting.items) }
    ensures { TookRows table.old table.new (joined_rows waiting.items) }
{
    for payload in waiting {
        put_rows(table, payload.rows);
    }
}
