//! Numbers of which none stands twice.

ghost use Rattle.std.specs.Prelude.{◌≡◌, nat_eq};
ghost use Rattle.std.specs.List.{list_any};
ghost use Rattle.rollup_words.specs.Keys.{has_twice};

/// Whether a number is one of some.
fn is_in(number: usize, others: &[usize]) -> bool
    ensures { result ≡ list_any (λ m. nat_eq number m) others.now }
{
    others.iter().any(|other| number == *other)
}

/// Whether a number stands twice.
pub(crate) fn has_twice(numbers: &[usize]) -> bool
    ensures { result ≡ has_twice numbers.now }
{
    let mut rest = numbers;
    while let Some((first, later)) = rest.split_first() {
        if is_in(*first, later) {
            return true;
        }
        rest = later;
    }
    false
}
