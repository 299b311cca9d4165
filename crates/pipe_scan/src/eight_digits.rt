//! Up to eight digits at once.

ghost use Rattle.std.specs.Prelude.{◌+◌, ◌-◌, ◌≡◌, ◌≤◌, IfSome, Some, length};
ghost use Rattle.pipe_scan.specs.Eight.{IsEight, used_digits};
ghost use Rattle.pipe_scan.specs.Numbers.{read_few_digits};
ghost use Rattle.pipe_scan.specs.Records.{between};

use std::simd::prelude::*;

/// Eight bytes from the place n on leave the last n lanes of others as they are, and make the rest 0.
const LANES: [u8; 16] = [
    0, 0, 0, 0, 0, 0, 0, 0, 255, 255, 255, 255, 255, 255, 255, 255,
];

/// Eight bytes less the code of 0, of which so many are used, and those before are left out.
#[inline(always)]
fn digits_at(text: &[u8], at: usize, used: usize) -> u8x8
    requires within { at + 8 ≤ length text.now }
    requires used { used ≤ 8 }
    ensures { result ≡ used_digits text.now at (8 - used) }
{
    let digits = u8x8::from_slice(&text[at..]) - u8x8::splat(b'0');
    digits & u8x8::from_slice(&LANES[used..])
}

/// The number of eight digits, the first of which counts most.
#[inline(always)]
fn number_of_eight(digits: u8x8) -> Option<u32>
    ensures { IfSome result (λ n. IsEight digits n) }
{
    if digits.simd_le(u8x8::splat(9)).to_bitmask() != 255 {
        return None;
    }
    let wide: u32x8 = digits.cast();
    let weights = u32x8::from_array([10000000, 1000000, 100000, 10000, 1000, 100, 10, 1]);
    Some((wide * weights).reduce_sum())
}

/// The number of 1 to 8 digits between two places of a text. Eight bytes of the text end there, so
/// none is given near its start.
#[inline(always)]
pub(crate) fn digits_between(text: &[u8], low: usize, high: usize) -> Option<u32>
    requires { high ≤ length text.now }
    ensures { IfSome result (λ n. read_few_digits (between text.now low high) ≡ Some n) }
{
    let used = high.wrapping_sub(low);
    if high < 8 || used.wrapping_sub(1) > 7 {
        return None;
    }
    number_of_eight(digits_at(text, high - 8, used))
}
