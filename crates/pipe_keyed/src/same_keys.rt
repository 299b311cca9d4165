//! Keys that are compared.

ghost use Rattle.std.specs.Prelude.{◌≡◌, ◌+◌, ◌≤◌, drop, length, take};
ghost use Rattle.std.specs.Int.{from_le_bytes, to_le_bytes, w64};
ghost use Rattle.std.specs.Str.{bytes_eq};

/// Eight bytes from a position on, as one number.
#[inline(always)]
fn eight_from(bytes: &[u8], at: usize) -> u64
    requires { at + 8 ≤ length bytes.now }
    ensures number { result ≡ from_le_bytes w64 (take 8 (drop at bytes.now)) }
    ensures bytes { to_le_bytes w64 result ≡ take 8 (drop at bytes.now) }
{
    match bytes[at..at + 8].first_chunk::<8>() {
        Some(eight) => u64::from_le_bytes(*eight),
        None => unreachable!(),
    }
}

/// Whether two keys are the same. Of 8 to 16 bytes the first eight are compared as one number, and the
/// last eight as another.
#[inline(always)]
pub fn are_same(key: &[u8], other: &[u8]) -> bool
    ensures { result ≡ bytes_eq key.now other.now }
{
    let len = key.len();
    if len != other.len() {
        return false;
    }
    if len < 8 || 16 < len {
        return key == other;
    }
    eight_from(key, 0) == eight_from(other, 0)
        && eight_from(key, len - 8) == eight_from(other, len - 8)
}
