//! Means of whole numbers, in millionths.

ghost use Rattle.std.specs.Prelude.{◌≡◌, ◌+◌, ◌*◌, ◌^◌, ◌<◌, ◌≤◌, pos, neg_ℤ, if◌then◌else◌};
ghost use Rattle.lavzimo_rows.specs.Mean.{mean_micros, rounded, rounded_by};
ghost use Rattle.lavzimo_rows.specs.Cells.{IsMillionths};

/// A number of millionths: the whole number that it is not below, and the millionths above that.
#[derive(Clone, Copy, Debug, PartialEq, Eq, PartialOrd, Ord)]
pub struct Millionths {
    pub whole: i128,
    pub rest: u32,
}

/// A quotient, and the millionths behind it.
#[derive(Clone, Copy)]
struct Quotient {
    whole: u128,
    millionths: u32,
}

/// Whether what is left of a quotient is rounded upwards: more than half of the divisor is, and half
/// of it where that makes the quotient even.
fn rounds_up(quotient: u64, left: u64, divisor: u64) -> bool
    requires { left < 2 ^ 32 }
    ensures { rounded_by quotient left divisor ≡ (if result then quotient + 1 else quotient) }
{
    let twice = 2 * left;
    divisor < twice || (divisor == twice && quotient % 2 == 1)
}

/// The nearest number of millionths to a quotient, of two that are as near the even one.
fn divide(number: u128, divisor: u32) -> Quotient
    requires some { 0 < divisor }
    requires within { number ≤ 2 ^ 127 }
    ensures nearest { result.whole * 1000000 + result.millionths
        ≡ rounded (number * 1000000) divisor }
    ensures millionths { result.millionths < 1000000 }
    ensures within { result.whole ≤ number }
    ensures less { 0 < result.millionths → result.whole < number }
{
    let wide = u128::from(divisor);
    let divisor = u64::from(divisor);
    let whole = number / wide;
    let left = (number % wide) as u64 * 1_000_000;
    let quotient = left / divisor;
    if !rounds_up(quotient, left % divisor, divisor) {
        return Quotient {
            whole,
            millionths: quotient as u32,
        };
    }
    if quotient == 999_999 {
        Quotient {
            whole: whole + 1,
            millionths: 0,
        }
    } else {
        Quotient {
            whole,
            millionths: quotient as u32 + 1,
        }
    }
}

/// The number of millionths that is as far below 0 as a quotient is above it.
fn below_zero(quotient: Quotient) -> Millionths
    requires millionths { quotient.millionths < 1000000 }
    requires within { quotient.whole ≤ 2 ^ 127 }
    requires less { 0 < quotient.millionths → quotient.whole < 2 ^ 127 }
    ensures { IsMillionths (neg_ℤ (pos (quotient.whole * 1000000 + quotient.millionths))) result }
{
    let Quotient { whole, millionths } = quotient;
    if 0 < millionths {
        Millionths {
            whole: -1 - whole as i128,
            rest: 1_000_000 - millionths,
        }
    } else if 0 < whole {
        Millionths {
            whole: -1 - (whole - 1) as i128,
            rest: 0,
        }
    } else {
        Millionths { whole: 0, rest: 0 }
    }
}

/// The nearest number of millionths to the mean of so many numbers of a sum, of two that are as near
/// the even one.
pub fn mean_micros(sum: i128, count: u32) -> Millionths
    requires { 0 < count }
    ensures { IsMillionths (mean_micros sum count) result }
{
    let quotient = divide(sum.unsigned_abs(), count);
    if sum < 0 {
        below_zero(quotient)
    } else {
        Millionths {
            whole: quotient.whole as i128,
            rest: quotient.millionths,
        }
    }
}
