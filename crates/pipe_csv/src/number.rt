//! The numbers that digits write.

ghost use Rattle.std.specs.Prelude.{◌^◌, ◌≡◌, ◌≤◌, IfSome, Some, length, neg_ℤ, option_and_then, pos};
ghost use Rattle.pipe_csv.specs.Fields.{read_digits};
ghost use Rattle.pipe_csv.specs.Numbers.{read_int128, read_magnitude, within_int128};

/// So many digits fit into 64 bits.
const SHORT: usize = 18;

/// The greatest number of which ten times and a digit may still be a magnitude of 128 bits.
const TENTH: u128 = 17014118346046923173168730371588410572;

/// The magnitude of the least number of 128 bits.
const GREATEST: u128 = 170141183460469231731687303715884105728;

/// The number of few digits.
fn read_short(digits: &[u8]) -> Option<u64>
    requires { length digits.now ≤ SHORT }
    ensures { result ≡ read_digits digits.now }
{
    if digits.is_empty() {
        return None;
    }
    let mut number: u64 = 0;
    for digit in digits {
        let value = digit.wrapping_sub(b'0');
        if value > 9 {
            return None;
        }
        number = number * 10 + u64::from(value);
    }
    Some(number)
}

/// The number of any digits, where it isn't too great for 128 bits with a sign.
fn read_long(digits: &[u8]) -> Option<u128>
    ensures { result ≡ read_magnitude digits.now }
{
    if digits.is_empty() {
        return None;
    }
    let mut number: u128 = 0;
    for digit in digits {
        let value = digit.wrapping_sub(b'0');
        if value > 9 || number > TENTH {
            return None;
        }
        number = number * 10 + u128::from(value);
    }
    if number > GREATEST {
        return None;
    }
    Some(number)
}

/// The number of any digits, by way of 64 bits where they are few.
fn read_unsigned(digits: &[u8]) -> Option<u128>
    ensures { result ≡ read_magnitude digits.now }
{
    if digits.len() > SHORT {
        return read_long(digits);
    }
    match read_short(digits) {
        Some(number) => Some(u128::from(number)),
        None => None,
    }
}

/// A magnitude as a number that isn't below 0.
fn positive(magnitude: Option<u128>) -> Option<i128>
    requires { IfSome magnitude (λ n. n ≤ 2 ^ 127) }
    ensures { result ≡ option_and_then (λ n. within_int128 (pos n)) magnitude }
{
    match magnitude {
        Some(number) if number < GREATEST => Some(number as i128),
        _ => None,
    }
}

/// A magnitude as a number below 0, or 0.
fn negative(magnitude: Option<u128>) -> Option<i128>
    requires { IfSome magnitude (λ n. n ≤ 2 ^ 127) }
    ensures { result ≡ option_and_then (λ n. Some (neg_ℤ (pos n))) magnitude }
{
    match magnitude {
        Some(number) if number < GREATEST => Some(-(number as i128)),
        Some(_) => Some(i128::MIN),
        None => None,
    }
}

/// The number of 128 bits that a text writes: one sign at most, then digits.
pub fn read_int128(text: &[u8]) -> Option<i128>
    ensures { result ≡ read_int128 text.now }
{
    match text {
        [] => None,
        [b'+', digits @ ..] => positive(read_unsigned(digits)),
        [b'-', digits @ ..] => negative(read_unsigned(digits)),
        digits => positive(read_unsigned(digits)),
    }
}
