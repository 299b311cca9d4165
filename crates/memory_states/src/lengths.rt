//! Lengths of the pieces of a text.

ghost use Rattle.std.specs.Prelude.{◌≡◌, ◌==◌};
ghost use Rattle.std.specs.List.{sum};
ghost use Rattle.memory_states.specs.Calls.{are_lengths};

/// Whether numbers come to a total.
fn come_to(numbers: &[usize], total: usize) -> bool
    ensures { result ≡ (sum numbers.now == total) }
{
    let mut left = total;
    for number in numbers {
        if *number > left {
            return false;
        }
        left -= *number;
    }
    left == 0
}

/// Whether lengths are those of pieces, one at least, which are all of a text.
pub(crate) fn are_lengths(lengths: &[usize], text: &[u8]) -> bool
    ensures { result ≡ are_lengths lengths.now text.now }
{
    !lengths.is_empty() && come_to(lengths, text.len())
}
