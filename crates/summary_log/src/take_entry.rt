//! The entry that bytes begin with.

ghost use Rattle.std.specs.Prelude.{◌≡◌, ◌++◌, ◌^◌, ◌<◌, IfSome, IsNone, length};
ghost use Rattle.std.specs.Int.{bytes_high_first};
ghost use Rattle.summary_log.specs.Log.{BeginsNone, entry};

/// The number in the first eight bytes, and the bytes behind them.
pub(crate) fn take_length(bytes: &[u8]) -> Option<(u64, &[u8])>
    ensures some { IfSome result (λ p. bytes_high_first 8 p.0 ++ p.1.now ≡ bytes.now) }
    ensures range { IfSome result (λ p. p.0 < 2 ^ 64) }
    ensures none { IsNone result → length bytes.now < 8 }
{
    let (front, rest) = bytes.split_first_chunk::<8>()?;
    Some((u64::from_be_bytes(*front), rest))
}

/// The frame of the entry that bytes begin with, and the bytes behind it.
pub(crate) fn take_entry(bytes: &[u8]) -> Option<(&[u8], &[u8])>
    ensures some { IfSome result (λ p. entry p.0.now ++ p.1.now ≡ bytes.now) }
    ensures none { IsNone result → BeginsNone bytes.now }
{
    let (length, rest) = take_length(bytes)?;
    if length > rest.len() as u64 {
        return None;
    }
    Some(rest.split_at(length as usize))
}
