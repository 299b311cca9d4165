//! The bytes of one row behind others. A refusal leaves a part of them.

ghost use Rattle.std.specs.Prelude.{◌≡◌, ◌<◌, ◌^◌, ◌++◌, OnOk, length, take};
ghost use Rattle.std.specs.Int.{bytes_high_first};
ghost use Rattle.pipe_columns.specs.Key.{code};
ghost use Rattle.pipe_inputs.specs.ChunkRows.{row_at};
ghost use Rattle.pipe_spill.specs.KeyTypes.{AreOfTypes, IsTuple};

use pipe_columns::{AnyValue, DataType, Place};
use pipe_inputs::ChunkRows;
use pipe_spill::append_value;
use std::alloc::AllocError;

/// The bytes of a place and of the length of a key.
#[inline(always)]
fn head_of(place: Place, size: u64) -> [u8; 16]
    ensures { result ≡ bytes_high_first 4 place.chunk ++ bytes_high_first 4 place.row
        ++ bytes_high_first 8 size }
{
    let mut head = [0; 16];
    head[..4].copy_from_slice(&place.chunk.to_be_bytes());
    head[4..8].copy_from_slice(&place.row.to_be_bytes());
    head[8..].copy_from_slice(&size.to_be_bytes());
    head
}

/// Appends what stands of a row before its inputs.
#[inline(always)]
pub(crate) fn append_key(buffer: &mut Vec<u8>, place: Place, key: &[u8]) -> Result<(), AllocError>
    ensures ok { OnOk result (buffer.new.items ≡ buffer.old.items
        ++ (bytes_high_first 4 place.chunk ++ bytes_high_first 4 place.row
        ++ bytes_high_first 8 (length key.now) ++ key.now)) }
    ensures chunk { place.chunk < 2 ^ 32 }
    ensures row { place.row < 2 ^ 32 }
    ensures refused { take (length buffer.old.items) buffer.new.items ≡ buffer.old.items }
{
    buffer.extend_from_slice(&head_of(place, key.len() as u64))?;
    buffer.extend_from_slice(key)
}

/// Appends the inputs of row `row` of a chunk, which are lent.
#[inline(always)]
pub(crate) fn append_lent(
    buffer: &mut Vec<u8>,
    rows: &ChunkRows<'_>,
    row: usize,
    types: &[DataType],
) -> Result<(), AllocError>
    requires there { row < length rows.now }
    requires typed { AreOfTypes types.now (row_at rows.now row).inputs }
    ensures tuple { OnOk result (IsTuple types.now (row_at rows.now row).inputs) }
    ensures ok { OnOk result (buffer.new.items
        ≡ buffer.old.items ++ code types.now (row_at rows.now row).inputs) }
    ensures refused { take (length buffer.old.items) buffer.new.items ≡ buffer.old.items }
{
    for i in 0..types.len() {
        append_value(buffer, rows.input(row, i), types[i])?;
    }
    Ok(())
}

/// Appends values as inputs.
pub(crate) fn append_inputs(
    buffer: &mut Vec<u8>,
    values: &[AnyValue],
    types: &[DataType],
) -> Result<(), AllocError>
    requires { AreOfTypes types.now values.now }
    ensures tuple { OnOk result (IsTuple types.now values.now) }
    ensures ok { OnOk result (buffer.new.items ≡ buffer.old.items ++ code types.now values.now) }
    ensures refused { take (length buffer.old.items) buffer.new.items ≡ buffer.old.items }
{
    for i in 0..types.len() {
        append_value(buffer, &values[i], types[i])?;
    }
    Ok(())
}
