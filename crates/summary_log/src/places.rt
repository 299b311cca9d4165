//! Places in a log, by where its entries end.

ghost use Rattle.std.specs.Prelude.{◌≡◌, ◌<◌, IfSome, length};
ghost use Rattle.pipe_spill.specs.FileStore.{next_start, start_of};
ghost use Rattle.summary_log.specs.Ends.{frame_size, frame_start};

use crate::find_ends::LENGTH_BYTES;

/// Where the last entry ends.
pub(crate) fn end_of(ends: &[u64]) -> u64
    ensures { result ≡ next_start ends.now }
{
    if ends.is_empty() {
        return 0;
    }
    ends[ends.len() - 1]
}

/// Where the entry of a number starts.
fn start_of(ends: &[u64], number: usize) -> u64
    requires { number < length ends.now }
    ensures { result ≡ start_of ends.now number }
{
    if number == 0 {
        return 0;
    }
    ends[number - 1]
}

/// Where the frame of a number starts, and how many bytes it has, unless numbers of 64 bits don't reach
/// there.
pub(crate) fn place_of(ends: &[u64], number: usize) -> Option<(u64, usize)>
    requires { number < length ends.now }
    ensures start { IfSome result (λ p. p.0 ≡ frame_start ends.now number) }
    ensures size { IfSome result (λ p. p.1 ≡ frame_size ends.now number) }
{
    let start = start_of(ends, number).checked_add(LENGTH_BYTES)?;
    Some((start, ends[number].saturating_sub(start) as usize))
}
