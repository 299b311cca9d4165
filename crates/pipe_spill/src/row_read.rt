//! One row out of the bytes of a frame.

ghost use Rattle.std.specs.Prelude.{◌≡◌, ◌++◌, ◌<◌, ◌^◌, IfOk, IfSome, IsErrOf, IsNone, length};
ghost use Rattle.std.specs.Int.{bytes_high_first};
ghost use Rattle.pipe_spill.specs.FrameBytes.{row_bytes};
ghost use Rattle.pipe_spill.specs.Reading.{BeginsNoRow};
ghost use Rattle.pipe_spill.specs.SpillRow.{IsRow};
ghost use Rattle.pipe_spill.specs.declared.frame_read.FrameError.TheVariants as fault;

use crate::decode::{DecodeError, read_values};
use crate::frame_read::FrameError;
use crate::key_bytes::KeyBytes;
use crate::key_check::is_key;
use crate::spill_row::SpillRow;
use pipe_columns::{DataType, Place};
use std::alloc::Global;

/// The number in the first four bytes, and the bytes after them.
fn take_u32(bytes: &[u8]) -> Option<(u32, &[u8])>
    ensures some { IfSome result (λ p. bytes_high_first 4 p.0 ++ p.1.now ≡ bytes.now) }
    ensures range { IfSome result (λ p. p.0 < 2 ^ 32) }
    ensures none { IsNone result → length bytes.now < 4 }
{
    let (front, rest) = bytes.split_first_chunk::<4>()?;
    Some((u32::from_be_bytes(*front), rest))
}

/// The number in the first eight bytes, and the bytes after them.
pub fn take_u64(bytes: &[u8]) -> Option<(u64, &[u8])>
    ensures some { IfSome result (λ p. bytes_high_first 8 p.0 ++ p.1.now ≡ bytes.now) }
    ensures range { IfSome result (λ p. p.0 < 2 ^ 64) }
    ensures none { IsNone result → length bytes.now < 8 }
{
    let (front, rest) = bytes.split_first_chunk::<8>()?;
    Some((u64::from_be_bytes(*front), rest))
}

/// The place, the length of the key and the bytes after them.
fn take_head(bytes: &[u8]) -> Option<(Place, u64, &[u8])>
    ensures some { IfSome result (λ h. bytes_high_first 4 h.0.chunk ++ bytes_high_first 4 h.0.row
        ++ bytes_high_first 8 h.1 ++ h.2.now ≡ bytes.now) }
    ensures chunk { IfSome result (λ h. h.0.chunk < 2 ^ 32) }
    ensures row { IfSome result (λ h. h.0.row < 2 ^ 32) }
    ensures size { IfSome result (λ h. h.1 < 2 ^ 64) }
    ensures none { IsNone result → length bytes.now < 16 }
{
    let (chunk, rest) = take_u32(bytes)?;
    let (row, rest) = take_u32(rest)?;
    let (size, rest) = take_u64(rest)?;
    Some((Place { chunk, row }, size, rest))
}

/// What a fault of a code is to a frame.
fn frame_error(error: DecodeError) -> FrameError
    ensures not_a_frame { result ≡ fault.NotAFrame → error ≡ DecodeError.NotAKey }
{
    match error {
        DecodeError::NotAKey => FrameError::NotAFrame,
        DecodeError::Memory => FrameError::Memory,
    }
}

/// The row that the bytes begin with, and the bytes after it.
pub fn read_row<'a>(
    alloc: Global,
    bytes: &'a [u8],
    key_types: &[DataType],
    input_types: &[DataType],
) -> Result<(SpillRow, &'a [u8]), FrameError>
    ensures row { IfOk result (λ p. IsRow key_types.now input_types.now p.0) }
    ensures bytes { IfOk result (λ p. row_bytes input_types.now p.0 ++ p.1.now ≡ bytes.now) }
    ensures not_a_frame { IsErrOf result fault.NotAFrame
        → BeginsNoRow key_types.now input_types.now bytes.now }
{
    let Some((place, size, rest)) = take_head(bytes) else {
        return Err(FrameError::NotAFrame);
    };
    if size > rest.len() as u64 {
        return Err(FrameError::NotAFrame);
    }
    let (key, rest) = rest.split_at(size as usize);
    if !is_key(key, key_types) {
        return Err(FrameError::NotAFrame);
    }
    match read_values(alloc, rest, input_types) {
        Ok((values, rest)) => {
            let key = KeyBytes::from_slice(alloc, key)?;
            Ok((SpillRow { place, key, values }, rest))
        }
        Err(error) => Err(frame_error(error)),
    }
}
