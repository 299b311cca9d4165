//! Rows out of the bytes of a frame.

ghost use Rattle.std.specs.Prelude.{◌≡◌, IfOk, IsErrOf, List};
ghost use Rattle.pipe_spill.specs.FrameBytes.{frame_bytes, IsFrameOfNone};
ghost use Rattle.pipe_spill.specs.SpillRow.{AreRows};
ghost use Rattle.pipe_spill.specs.declared.frame_read.FrameError.TheVariants as fault;
ghost use Rattle.pipe_spill.specs.declared.spill_row.SpillRow.{SpillRow};

use crate::row_read::{read_row, take_u64};
use crate::spill_row::SpillRow;
use pipe_columns::DataType;
use std::alloc::{AllocError, AllocFailed, Global};

/// Why bytes were not read as a frame.
#[derive(Debug, Drop, PartialEq, Eq)]
pub enum FrameError {
    /// They are the frame of no rows of the types.
    NotAFrame,
    Memory,
}

impl From<AllocError> for FrameError {
    ghost from_gives = { λ _ e. e ≡ fault.Memory };

    fn from(_: AllocError) -> Self {
        FrameError::Memory
    }
}

impl<T: Drop> From<AllocFailed<T>> for FrameError {
    ghost from_gives = { λ _ e. e ≡ fault.Memory };

    fn from(_: AllocFailed<T>) -> Self {
        FrameError::Memory
    }
}

/// The fewest bytes that a row takes: those of its place and of the length of its key.
const LEAST_ROW: usize = 16;

/// The rows of a frame. It takes no more room than the bytes that are there call for, whatever
/// number of rows the frame begins with.
pub fn read_frame(
    alloc: Global,
    bytes: &[u8],
    key_types: &[DataType],
    input_types: &[DataType],
) -> Result<Vec<SpillRow>, FrameError>
    ensures rows { IfOk result (λ rows. AreRows key_types.now input_types.now rows.items) }
    ensures frame { IfOk result (λ rows. frame_bytes input_types.now rows.items ≡ bytes.now) }
    ensures read_back { IfOk result (λ read. (rows : List SpillRow)
        → AreRows key_types.now input_types.now rows
        → frame_bytes input_types.now rows ≡ bytes.now → rows ≡ read.items) }
    ensures not_a_frame { IsErrOf result fault.NotAFrame
        → IsFrameOfNone key_types.now input_types.now bytes.now }
{
    let Some((count, mut rest)) = take_u64(bytes) else {
        return Err(FrameError::NotAFrame);
    };
    if count > (rest.len() / LEAST_ROW) as u64 {
        return Err(FrameError::NotAFrame);
    }
    let mut rows = Vec::with_capacity(alloc, count as usize)?;
    for _row in 0..count {
        let (row, after) = read_row(alloc, rest, key_types, input_types)?;
        rows.push(row)?;
        rest = after;
    }
    if rest.is_empty() {
        Ok(rows)
    } else {
        Err(FrameError::NotAFrame)
    }
}
