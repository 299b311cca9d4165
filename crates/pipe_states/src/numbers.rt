//! The numbers of a state and of its rows out of their bytes.

ghost use Rattle.std.specs.Prelude.{◌≡◌, ◌++◌, ◌<◌, ◌^◌, IfSome, IsNone, length};
ghost use Rattle.std.specs.Int.{bytes_high_first};
ghost use Rattle.pipe_states.specs.Reading.{BeginsNoCount, BeginsNoCounts, BeginsNoKey, count_bytes, counts_bytes, key_bytes};

use pipe_columns::Place;

/// The number in the first four bytes, and the bytes after them.
fn take_u32(bytes: &[u8]) -> Option<(u32, &[u8])>
    ensures some { IfSome result (λ p. bytes_high_first 4 p.0 ++ p.1.now ≡ bytes.now) }
    ensures range { IfSome result (λ p. p.0 < 2 ^ 32) }
    ensures none { IsNone result → length bytes.now < 4 }
{
    let (front, rest) = bytes.split_first_chunk::<4>()?;
    Some((u32::from_be_bytes(*front), rest))
}

/// The number in the first eight bytes, and the bytes after them.
pub(crate) fn take_u64(bytes: &[u8]) -> Option<(u64, &[u8])>
    ensures some { IfSome result (λ p. bytes_high_first 8 p.0 ++ p.1.now ≡ bytes.now) }
    ensures range { IfSome result (λ p. p.0 < 2 ^ 64) }
    ensures none { IsNone result → length bytes.now < 8 }
{
    let (front, rest) = bytes.split_first_chunk::<8>()?;
    Some((u64::from_be_bytes(*front), rest))
}

/// Where a state's range begins and ends, and the bytes of its rows.
pub(crate) fn take_range(bytes: &[u8]) -> Option<(u32, u32, &[u8])>
    ensures some { IfSome result (λ p. bytes_high_first 4 p.0 ++ bytes_high_first 4 p.1
        ++ p.2.now ≡ bytes.now) }
    ensures first { IfSome result (λ p. p.0 < 2 ^ 32) }
    ensures end { IfSome result (λ p. p.1 < 2 ^ 32) }
    ensures none { IsNone result → length bytes.now < 8 }
{
    let (first, rest) = take_u32(bytes)?;
    let (end, rest) = take_u32(rest)?;
    Some((first, end, rest))
}

/// The least place of a row, the length of its key, and the bytes after them.
fn take_head(bytes: &[u8]) -> Option<(Place, u64, &[u8])>
    ensures some { IfSome result (λ h. bytes_high_first 4 h.0.chunk ++ bytes_high_first 4 h.0.row
        ++ bytes_high_first 8 h.1 ++ h.2.now ≡ bytes.now) }
    ensures chunk { IfSome result (λ h. h.0.chunk < 2 ^ 32) }
    ensures row { IfSome result (λ h. h.0.row < 2 ^ 32) }
    ensures size { IfSome result (λ h. h.1 < 2 ^ 64) }
    ensures none { IsNone result → length bytes.now < 16 }
{
    let (chunk, rest) = take_u32(bytes)?;
    let (row, rest) = take_u32(rest)?;
    let (size, rest) = take_u64(rest)?;
    Some((Place { chunk, row }, size, rest))
}

/// The least place of a row, the bytes of its key, and those after them.
pub(crate) fn take_key(bytes: &[u8]) -> Option<(Place, &[u8], &[u8])>
    ensures some { IfSome result (λ k. key_bytes k.0 k.1.now ++ k.2.now ≡ bytes.now) }
    ensures chunk { IfSome result (λ k. k.0.chunk < 2 ^ 32) }
    ensures row { IfSome result (λ k. k.0.row < 2 ^ 32) }
    ensures none { IsNone result → BeginsNoKey bytes.now }
{
    let (place, size, rest) = take_head(bytes)?;
    if size > rest.len() as u64 {
        return None;
    }
    let (key, rest) = rest.split_at(size as usize);
    Some((place, key, rest))
}

/// The count whose code the bytes begin with, and the bytes after it.
fn take_count(bytes: &[u8]) -> Option<(u32, &[u8])>
    ensures some { IfSome result (λ p. count_bytes p.0 ++ p.1.now ≡ bytes.now) }
    ensures range { IfSome result (λ p. p.0 < 2 ^ 32) }
    ensures none { IsNone result → BeginsNoCount bytes.now }
{
    match bytes.split_first() {
        Some((1, body)) => take_u32(body),
        _ => None,
    }
}

/// The greatest place of a row, how many its rows are, and the bytes after them.
pub(crate) fn take_counts(bytes: &[u8]) -> Option<(Place, u32, &[u8])>
    ensures some { IfSome result (λ c. counts_bytes c.0 c.1 ++ c.2.now ≡ bytes.now) }
    ensures chunk { IfSome result (λ c. c.0.chunk < 2 ^ 32) }
    ensures row { IfSome result (λ c. c.0.row < 2 ^ 32) }
    ensures rows { IfSome result (λ c. c.1 < 2 ^ 32) }
    ensures none { IsNone result → BeginsNoCounts bytes.now }
{
    let (chunk, rest) = take_count(bytes)?;
    let (row, rest) = take_count(rest)?;
    let (rows, rest) = take_count(rest)?;
    Some((Place { chunk, row }, rows, rest))
}
