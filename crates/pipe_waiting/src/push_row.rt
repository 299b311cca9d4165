//! Rows that are put behind those that wait.

ghost use Rattle.std.specs.Prelude.{◌≡◌, ◌<◌, ◌++◌, OnErr, OnOk, length, take};
ghost use Rattle.pipe_inputs.specs.ChunkRows.{row_at};
ghost use Rattle.pipe_spill.specs.FrameBytes.{row_bytes};
ghost use Rattle.pipe_spill.specs.KeyTypes.{AreOfTypes};
ghost use Rattle.pipe_waiting.specs.Waiting.{CanWait, HasPushed, WaitAsBefore, lent_row};

use crate::append_row::{append_inputs, append_key, append_lent};
use crate::waiting_rows::WaitingRows;
use pipe_columns::{DataType, Place};
use pipe_inputs::ChunkRows;
use pipe_spill::SpillRow;
use std::alloc::AllocError;

/// Appends row `row` of a chunk, which is lent, with its key's code. A refusal leaves a part of it.
#[inline(always)]
fn append_lent_row(
    buffer: &mut Vec<u8>,
    key: &[u8],
    place: Place,
    rows: &ChunkRows<'_>,
    row: usize,
    types: &[DataType],
) -> Result<(), AllocError>
    requires there { row < length rows.now }
    requires typed { AreOfTypes types.now (row_at rows.now row).inputs }
    ensures can { OnOk result (CanWait types.now (lent_row key.now place rows.now row)) }
    ensures ok { OnOk result (buffer.new.items
        ≡ buffer.old.items ++ row_bytes types.now (lent_row key.now place rows.now row)) }
    ensures refused { take (length buffer.old.items) buffer.new.items ≡ buffer.old.items }
{
    append_key(buffer, place, key)?;
    append_lent(buffer, rows, row, types)
}

/// Appends a row. A refusal leaves a part of it.
fn append_row(buffer: &mut Vec<u8>, row: &SpillRow, types: &[DataType]) -> Result<(), AllocError>
    requires { AreOfTypes types.now row.now.values }
    ensures can { OnOk result (CanWait types.now row.now) }
    ensures ok { OnOk result (buffer.new.items
        ≡ buffer.old.items ++ row_bytes types.now row.now) }
    ensures refused { take (length buffer.old.items) buffer.new.items ≡ buffer.old.items }
{
    let place = row.place;
    let key = row.key.as_slice();
    append_key(buffer, place, key)?;
    append_inputs(buffer, row.values.as_slice(), types)
}

impl WaitingRows {
    /// Puts row `row` of a chunk behind, which is lent, with its key's code and its place. Memory is
    /// taken only where the bytes that there is room for don't hold it.
    #[inline(always)]
    pub fn push_lent(
        &mut self,
        key: &[u8],
        place: Place,
        rows: &ChunkRows<'_>,
        row: usize,
        types: &[DataType],
    ) -> Result<(), AllocError>
        requires there { row < length rows.now }
        requires typed { AreOfTypes types.now (row_at rows.now row).inputs }
        ensures pushed { OnOk result (HasPushed types.now
            (lent_row key.now place rows.now row) self.old self.new) }
        ensures refused { OnErr result (WaitAsBefore self.old self.new) }
    {
        let start = self.bytes.len();
        let appended = append_lent_row(&mut self.bytes, key, place, rows, row, types);
        if appended.is_err() {
            self.bytes.truncate(start);
        } else {
            self.count += 1;
        }
        appended
    }

    /// Puts a copy of a row behind.
    pub fn push(&mut self, row: &SpillRow, types: &[DataType]) -> Result<(), AllocError>
        requires { AreOfTypes types.now row.now.values }
        ensures pushed { OnOk result (HasPushed types.now row.now self.old self.new) }
        ensures refused { OnErr result (WaitAsBefore self.old self.new) }
    {
        let start = self.bytes.len();
        let appended = append_row(&mut self.bytes, row, types);
        if appended.is_err() {
            self.bytes.truncate(start);
        } else {
            self.count += 1;
        }
        appended
    }
}
