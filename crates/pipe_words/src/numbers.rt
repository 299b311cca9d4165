//! The numbers of options.

ghost use Rattle.std.specs.Prelude.{◌≡◌, ◌≤◌, IfSome, option_map};
ghost use Rattle.pipe_words.specs.Numbers.{number_or, read_word_number, up_to, within};

/// The most digits of a number.
const DIGITS: usize = 20;

/// The number that a text writes.
fn read_number(text: &[u8]) -> Option<u128>
    ensures { result ≡ read_word_number text.now }
{
    if text.is_empty() || text.len() > DIGITS {
        return None;
    }
    let mut number: u128 = 0;
    for digit in text {
        if !digit.is_ascii_digit() {
            return None;
        }
        number = number * 10 + u128::from(*digit - b'0');
    }
    Some(number)
}

/// A number from one to another.
fn within(low: usize, high: usize, number: u128) -> Option<usize>
    ensures number { result ≡ within low high number }
    ensures low { IfSome result (λ n. low ≤ n) }
    ensures high { IfSome result (λ n. n ≤ high) }
{
    if number < low as u128 || number > high as u128 {
        return None;
    }
    Some(number as usize)
}

/// The number of an option that may be from `low` to `high`, or `absent` where there is none.
pub(crate) fn number_or(
    absent: usize,
    low: usize,
    high: usize,
    value: Option<&str>,
) -> Option<usize>
    requires low { low ≤ absent }
    requires high { absent ≤ high }
    ensures number { result ≡ number_or absent low high (option_map (λ s. s.now) value.entry) }
    ensures low { IfSome result (λ n. low ≤ n) }
    ensures high { IfSome result (λ n. n ≤ high) }
{
    match value {
        Some(text) => within(low, high, read_number(text.as_bytes())?),
        None => Some(absent),
    }
}

/// A number up to another, which may be left away.
pub(crate) fn up_to(high: usize, value: Option<&str>) -> Option<Option<usize>>
    ensures number { result ≡ up_to high (option_map (λ s. s.now) value.entry) }
    ensures high { IfSome result (λ o. IfSome o (λ n. n ≤ high)) }
{
    match value {
        Some(text) => Some(Some(within(0, high, read_number(text.as_bytes())?)?)),
        None => Some(None),
    }
}
