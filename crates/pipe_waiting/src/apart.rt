//! Rows that wait in memory that was taken for them, with little room to spare.

ghost use Rattle.std.specs.Prelude.{◌≡◌, ◌≤◌, ◌<◌, ◌*◌, ◌++◌, IfOk, OnOk, length};
ghost use Rattle.pipe_inputs.specs.ChunkRows.{row_at};
ghost use Rattle.pipe_spill.specs.KeyTypes.{AreOfTypes};
ghost use Rattle.pipe_spill.specs.SpillRow.{HaveInputs};
ghost use Rattle.pipe_waiting.specs.Waiting.{AreWaiting, HasPushed, lent_row, waiting_rows};

use crate::waiting_rows::{LEAST_ROW, WaitingRows};
use pipe_columns::{DataType, Place};
use pipe_inputs::ChunkRows;
use pipe_spill::{SpillRow, rows_size, value_size};
use std::alloc::{AllocError, Global};

/// How many bytes row `row` of a chunk takes with its key's code.
fn lent_size(key: &[u8], rows: &ChunkRows<'_>, row: usize, types: &[DataType]) -> usize
    requires { row < length rows.now }
{
    let mut size = key.len().saturating_add(LEAST_ROW);
    for i in 0..types.len() {
        size = size.saturating_add(value_size(rows.input(row, i), types[i]));
    }
    size
}

/// Puts copies of rows behind those that wait. A refusal leaves a part of them.
fn push_rows(
    waiting: &mut WaitingRows,
    rows: &[SpillRow],
    types: &[DataType],
) -> Result<(), AllocError>
    requires inputs { HaveInputs types.now rows.now }
    requires typed { AreWaiting types.now waiting.old }
    ensures typed { OnOk result (AreWaiting types.now waiting.new) }
    ensures rows { OnOk result (waiting_rows types.now waiting.new
        ≡ waiting_rows types.now waiting.old ++ rows.now) }
{
    for row in rows {
        waiting.push(row, types)?;
    }
    Ok(())
}

impl WaitingRows {
    /// The bytes of rows, in one allocation.
    pub fn of_rows(
        alloc: Global,
        rows: &[SpillRow],
        types: &[DataType],
    ) -> Result<WaitingRows, AllocError>
        requires { HaveInputs types.now rows.now }
        ensures typed { IfOk result (AreWaiting types.now) }
        ensures rows { IfOk result (λ w. waiting_rows types.now w ≡ rows.now) }
        ensures slack { IfOk result (λ w. w.room * 4 ≤ length w.bytes * 5) }
    {
        let mut waiting = WaitingRows {
            count: 0,
            bytes: Vec::with_capacity(alloc, rows_size(rows, types))?,
        };
        push_rows(&mut waiting, rows, types)?;
        waiting.shrink()?;
        Ok(waiting)
    }

    /// The rows with row `row` of a chunk behind them, in memory of their own, of which at most a
    /// quarter of what they take is free. These rows stay.
    pub fn with_lent(
        &self,
        alloc: Global,
        key: &[u8],
        place: Place,
        rows: &ChunkRows<'_>,
        row: usize,
        types: &[DataType],
    ) -> Result<WaitingRows, AllocError>
        requires there { row < length rows.now }
        requires typed { AreOfTypes types.now (row_at rows.now row).inputs }
        ensures pushed { IfOk result (HasPushed types.now
            (lent_row key.now place rows.now row) self.now) }
        ensures slack { IfOk result (λ w. w.room * 4 ≤ length w.bytes * 5) }
    {
        let size = lent_size(key, rows, row, types);
        let mut bytes = Vec::with_capacity(alloc, self.bytes.len().saturating_add(size))?;
        bytes.extend_from_slice(&self.bytes)?;
        let mut waiting = WaitingRows {
            count: self.count,
            bytes,
        };
        waiting.push_lent(key, place, rows, row, types)?;
        waiting.shrink()?;
        Ok(waiting)
    }
}
