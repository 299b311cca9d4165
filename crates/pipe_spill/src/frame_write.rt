//! Rows as the bytes of a frame.

ghost use Rattle.std.specs.Prelude.{◌≡◌, ◌++◌, All, length, OnOk, IfOk};
ghost use Rattle.std.specs.Int.{bytes_high_first};
ghost use Rattle.pipe_spill.specs.FrameBytes.{frame_bytes, row_bytes, rows_bytes};
ghost use Rattle.pipe_spill.specs.KeyTypes.{AreOfTypes};
ghost use Rattle.pipe_spill.specs.SpillRow.{HaveInputs, joined_rows};

use crate::encode::append_values;
use crate::frame_size::{payloads_size, rows_size};
use crate::spill_row::{SpillPayload, SpillRow};
use pipe_columns::DataType;
use std::alloc::{AllocError, Global};

/// The frame of some rows, in one allocation.
pub fn write_frame(
    alloc: Global,
    rows: &[SpillRow],
    input_types: &[DataType],
) -> Result<Vec<u8>, AllocError>
    requires { HaveInputs input_types.now rows.now }
    ensures { IfOk result (λ frame. frame.items ≡ frame_bytes input_types.now rows.now) }
{
    let mut frame = begin(alloc, rows.len() as u64, rows_size(rows, input_types))?;
    append_rows(&mut frame, rows, input_types)?;
    Ok(frame)
}

/// The frame of the rows of some payloads, joined as they lie, in one allocation.
pub fn write_payloads(
    alloc: Global,
    payloads: &[SpillPayload],
    input_types: &[DataType],
) -> Result<Vec<u8>, AllocError>
    requires { All (λ p. HaveInputs input_types.now p.rows) payloads.now }
    ensures { IfOk result (λ frame.
        frame.items ≡ frame_bytes input_types.now (joined_rows payloads.now)) }
{
    let count = count_rows(payloads)?;
    let mut frame = begin(alloc, count, payloads_size(payloads, input_types))?;
    append_payloads(&mut frame, payloads, input_types)?;
    Ok(frame)
}

/// How many rows some payloads have. A number past 64 bits is that of rows that no memory holds.
fn count_rows(payloads: &[SpillPayload]) -> Result<u64, AllocError>
    ensures { IfOk result (λ count. count ≡ length (joined_rows payloads.now)) }
{
    let mut count: u64 = 0;
    for payload in payloads {
        match count.checked_add(payload.rows.len() as u64) {
            Some(more) => count = more,
            None => return Err(AllocError),
        }
    }
    Ok(count)
}

/// The frame of so many rows, of which none is written yet, with room for their bytes.
fn begin(alloc: Global, count: u64, size: usize) -> Result<Vec<u8>, AllocError>
    ensures { IfOk result (λ frame. frame.items ≡ bytes_high_first 8 count) }
{
    let mut frame = Vec::with_capacity(alloc, size.saturating_add(8))?;
    frame.extend_from_slice(&count.to_be_bytes())?;
    Ok(frame)
}

/// Appends the bytes of the rows of payloads. A refusal leaves a part of them.
fn append_payloads(
    frame: &mut Vec<u8>,
    payloads: &[SpillPayload],
    input_types: &[DataType],
) -> Result<(), AllocError>
    requires { All (λ p. HaveInputs input_types.now p.rows) payloads.now }
    ensures { OnOk result (frame.new.items
        ≡ frame.old.items ++ rows_bytes input_types.now (joined_rows payloads.now)) }
{
    for payload in payloads {
        append_rows(frame, &payload.rows, input_types)?;
    }
    Ok(())
}

/// Appends the bytes of rows. A refusal leaves a part of them.
fn append_rows(
    frame: &mut Vec<u8>,
    rows: &[SpillRow],
    input_types: &[DataType],
) -> Result<(), AllocError>
    requires { HaveInputs input_types.now rows.now }
    ensures { OnOk result (frame.new.items
        ≡ frame.old.items ++ rows_bytes input_types.now rows.now) }
{
    for row in rows {
        append_row(frame, row, input_types)?;
    }
    Ok(())
}

/// Appends the bytes of a row. A refusal leaves a part of them.
fn append_row(
    frame: &mut Vec<u8>,
    row: &SpillRow,
    input_types: &[DataType],
) -> Result<(), AllocError>
    requires { AreOfTypes input_types.now row.now.values }
    ensures { OnOk result (frame.new.items ≡ frame.old.items ++ row_bytes input_types.now row.now) }
{
    let key = row.key.as_slice();
    frame.extend_from_slice(&row.place.chunk.to_be_bytes())?;
    frame.extend_from_slice(&row.place.row.to_be_bytes())?;
    frame.extend_from_slice(&(key.len() as u64).to_be_bytes())?;
    frame.extend_from_slice(key)?;
    append_values(frame, row.values.as_slice(), input_types)
}
