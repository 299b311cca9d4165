//! What stands of a row before its inputs, out of bytes.

ghost use Rattle.std.specs.Prelude.{◌≡◌, ◌≢◌, ◌++◌, ◌<◌, ◌^◌, IfSome, IsNone, List, ℕ, length};
ghost use Rattle.std.specs.Int.{bytes_high_first};
ghost use Rattle.pipe_columns.specs.declared.data_type.DataType.{DataType};
ghost use Rattle.pipe_spill.specs.FrameBytes.{row_bytes};
ghost use Rattle.pipe_spill.specs.declared.spill_row.SpillRow.{SpillRow};

use pipe_columns::Place;

/// The number in the first four bytes, and the bytes after them.
#[inline(always)]
pub(crate) fn take_u32(bytes: &[u8]) -> Option<(u32, &[u8])>
    ensures some { IfSome result (λ p. bytes_high_first 4 p.0 ++ p.1.now ≡ bytes.now) }
    ensures range { IfSome result (λ p. p.0 < 2 ^ 32) }
    ensures none { IsNone result → length bytes.now < 4 }
{
    let (front, rest) = bytes.split_first_chunk::<4>()?;
    Some((u32::from_be_bytes(*front), rest))
}

/// The number in the first eight bytes, and the bytes after them.
#[inline(always)]
pub(crate) fn take_u64(bytes: &[u8]) -> Option<(u64, &[u8])>
    ensures some { IfSome result (λ p. bytes_high_first 8 p.0 ++ p.1.now ≡ bytes.now) }
    ensures range { IfSome result (λ p. p.0 < 2 ^ 64) }
    ensures none { IsNone result → length bytes.now < 8 }
{
    let (front, rest) = bytes.split_first_chunk::<8>()?;
    Some((u64::from_be_bytes(*front), rest))
}

/// The place, the length of the key and the bytes after them.
#[inline(always)]
fn take_numbers(bytes: &[u8]) -> Option<(Place, u64, &[u8])>
    ensures some { IfSome result (λ h. bytes_high_first 4 h.0.chunk ++ bytes_high_first 4 h.0.row
        ++ bytes_high_first 8 h.1 ++ h.2.now ≡ bytes.now) }
    ensures chunk { IfSome result (λ h. h.0.chunk < 2 ^ 32) }
    ensures row { IfSome result (λ h. h.0.row < 2 ^ 32) }
    ensures size { IfSome result (λ h. h.1 < 2 ^ 64) }
    ensures none { IsNone result → length bytes.now < 16 }
{
    let (chunk, rest) = take_u32(bytes)?;
    let (row, rest) = take_u32(rest)?;
    let (size, rest) = take_u64(rest)?;
    Some((Place { chunk, row }, size, rest))
}

/// The place and the key of the row that the bytes begin with, and the bytes after them.
#[inline(always)]
pub(crate) fn take_key(bytes: &[u8]) -> Option<(Place, &[u8], &[u8])>
    ensures some { IfSome result (λ h. bytes_high_first 4 h.0.chunk ++ bytes_high_first 4 h.0.row
        ++ bytes_high_first 8 (length h.1.now) ++ h.1.now ++ h.2.now ≡ bytes.now) }
    ensures chunk { IfSome result (λ h. h.0.chunk < 2 ^ 32) }
    ensures row { IfSome result (λ h. h.0.row < 2 ^ 32) }
    ensures none { IsNone result → (types : List DataType) (r : SpillRow) (rest : List ℕ)
        → row_bytes types r ++ rest ≢ bytes.now }
{
    let (place, size, rest) = take_numbers(bytes)?;
    if size > rest.len() as u64 {
        return None;
    }
    let (key, rest) = rest.split_at(size as usize);
    Some((place, key, rest))
}
