//! Numbers of millionths as decimal numbers.

ghost use Rattle.std.specs.Prelude.{◌≡◌, ◌++◌, ◌<◌, ◌*◌, ◌+◌, OnOk};
ghost use Rattle.lavzimo_rows.specs.Cells.{number_of};
ghost use Rattle.lavzimo_rows.specs.Decimal.{decimal_text, fraction_text, magnitude_text};

use crate::mean::Millionths;
use itoa::Buffer;
use std::alloc::AllocError;

/// Puts a point and the digits of millionths behind a text, where there are any.
fn append_fraction(text: &mut Vec<u8>, millionths: u32) -> Result<(), AllocError>
    requires { millionths < 1000000 }
    ensures { OnOk result (text.new.items ≡ text.old.items ++ fraction_text millionths) }
{
    if millionths == 0 {
        return Ok(());
    }
    text.push(b'.')?;
    let mut rest = millionths;
    for _ in 0..6u32 {
        if rest == 0 {
            return Ok(());
        }
        text.push(b'0' + (rest * 10 / 1_000_000) as u8)?;
        rest = rest * 10 % 1_000_000;
    }
    Ok(())
}

/// Puts a decimal number that isn't below 0 behind a text.
fn append_magnitude(
    text: &mut Vec<u8>,
    digits: &mut Buffer,
    whole: u128,
    millionths: u32,
) -> Result<(), AllocError>
    requires { millionths < 1000000 }
    ensures { OnOk result (text.new.items
        ≡ text.old.items ++ magnitude_text (whole * 1000000 + millionths)) }
{
    text.extend_from_slice(digits.format(whole).as_bytes())?;
    append_fraction(text, millionths)
}

/// Puts a number of millionths behind a text, as a decimal number.
pub fn append_decimal(
    text: &mut Vec<u8>,
    digits: &mut Buffer,
    number: Millionths,
) -> Result<(), AllocError>
    requires { number.rest < 1000000 }
    ensures { OnOk result (text.new.items ≡ text.old.items ++ decimal_text (number_of number)) }
{
    let Millionths { whole, rest } = number;
    if 0 <= whole {
        return append_magnitude(text, digits, whole.unsigned_abs(), rest);
    }
    text.push(b'-')?;
    if rest == 0 {
        append_magnitude(text, digits, whole.unsigned_abs(), 0)
    } else {
        append_magnitude(text, digits, whole.unsigned_abs() - 1, 1_000_000 - rest)
    }
}
