//! The code of a row's key, and its inputs, out of a chunk.

ghost use Rattle.std.specs.Prelude.{◌≡◌, ◌<◌, IfOk, OnOk, length};
ghost use Rattle.pipe_columns.specs.Key.{code};
ghost use Rattle.pipe_inputs.specs.ChunkRows.{row_at};
ghost use Rattle.pipe_spill.specs.KeyTypes.{AreOfTypes};

use pipe_columns::DataType;
use pipe_inputs::ChunkRows;
use pipe_spill::{Values, append_value};
use std::alloc::{AllocError, Global};

/// Puts the code of a row's key into a buffer, in the place of what it held. It takes no memory
/// where the buffer has room.
#[inline(always)]
pub fn encode_row(
    buffer: &mut Vec<u8>,
    rows: &ChunkRows<'_>,
    row: usize,
    types: &[DataType],
) -> Result<(), AllocError>
    requires there { row < length rows.now }
    requires typed { AreOfTypes types.now (row_at rows.now row).key }
    ensures ok { OnOk result (buffer.new.items ≡ code types.now (row_at rows.now row).key) }
{
    buffer.clear();
    for i in 0..types.len() {
        append_value(buffer, rows.key(row, i), types[i])?;
    }
    Ok(())
}

/// A row's inputs, of their own. Few of them take no memory but for texts.
#[inline(always)]
pub fn own_values(alloc: Global, rows: &ChunkRows<'_>, row: usize) -> Result<Values, AllocError>
    requires { row < length rows.now }
    ensures { IfOk result (λ v. v ≡ (row_at rows.now row).inputs) }
{
    match rows.inputs_len() {
        1 => Ok(Values::one(rows.own_input(alloc, row, 0)?)),
        2 => {
            let first = rows.own_input(alloc, row, 0)?;
            Ok(Values::pair(first, rows.own_input(alloc, row, 1)?))
        }
        _ => Ok(Values::new(rows.own_inputs(alloc, row)?)),
    }
}
