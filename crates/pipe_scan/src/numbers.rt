//! The numbers that short fields write.

ghost use Rattle.std.specs.Prelude.{◌<◌, ◌^◌, ◌≡◌, ◌≤◌, IfSome, length};
ghost use Rattle.pipe_scan.specs.Numbers.{read_digits, read_few_digits, read_short_number, signed};
ghost use Rattle.pipe_scan.specs.Records.{between};

use crate::eight_digits::digits_between;

/// So many digits fit into 64 bits, whatever they are.
pub(crate) const MOST_DIGITS: usize = 18;

/// The number of few digits, one by one.
fn short_digits(digits: &[u8]) -> Option<u64>
    requires { length digits.now ≤ MOST_DIGITS }
    ensures number { result ≡ read_digits digits.now }
    ensures small { IfSome result (λ n. n < 10 ^ 18) }
{
    if digits.is_empty() {
        return None;
    }
    let mut number: u64 = 0;
    for digit in digits {
        let value = digit.wrapping_sub(b'0');
        if value > 9 {
            return None;
        }
        number = number * 10 + u64::from(value);
    }
    Some(number)
}

/// The number of any digits, where they are few.
fn few_digits(digits: &[u8]) -> Option<u64>
    ensures number { result ≡ read_few_digits digits.now }
    ensures small { IfSome result (λ n. n < 10 ^ 18) }
{
    if digits.len() > MOST_DIGITS {
        return None;
    }
    short_digits(digits)
}

/// The number of few digits between two places of a text, at once where they can be.
#[inline(always)]
fn number_between(text: &[u8], low: usize, high: usize) -> Option<u64>
    requires order { low ≤ high }
    requires within { high ≤ length text.now }
    ensures number { result ≡ read_few_digits (between text.now low high) }
    ensures small { IfSome result (λ n. n < 10 ^ 18) }
{
    match digits_between(text, low, high) {
        Some(number) => Some(u64::from(number)),
        None => few_digits(&text[low..high]),
    }
}

/// A magnitude with its sign.
#[inline(always)]
fn with_sign(negative: bool, magnitude: u64) -> i64
    requires { magnitude < 10 ^ 18 }
    ensures { result ≡ signed negative magnitude }
{
    let number = magnitude as i64;
    if negative { -number } else { number }
}

/// The number of 1 to 18 digits, after one `-` at most, that stands between two places of a text.
#[inline(always)]
pub fn field_number(text: &[u8], low: usize, high: usize) -> Option<i64>
    requires order { low ≤ high }
    requires within { high ≤ length text.now }
    ensures { result ≡ read_short_number (between text.now low high) }
{
    if low == high {
        return None;
    }
    let negative = text[low] == b'-';
    match number_between(text, low + usize::from(negative), high) {
        Some(magnitude) => Some(with_sign(negative, magnitude)),
        None => None,
    }
}
