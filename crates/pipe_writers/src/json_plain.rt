//! Whether a JSON string has bytes as they are.

ghost use Rattle.std.specs.Prelude.{◌≡◌, ◌+◌, ◌≤◌, drop, length, take};
ghost use Rattle.pipe_writers.specs.PlainBytes.{are_plain};

use std::simd::prelude::*;

/// Whether none of eight bytes from a place on has an escape.
#[inline(always)]
fn eight_are_plain(bytes: &[u8], at: usize) -> bool
    requires { at + 8 ≤ length bytes.now }
    ensures { result ≡ are_plain (take 8 (drop at bytes.now)) }
{
    let lanes = u8x8::from_slice(&bytes[at..]);
    (lanes.simd_eq(u8x8::splat(b'"'))
        | lanes.simd_eq(u8x8::splat(b'\\'))
        | lanes.simd_lt(u8x8::splat(b' '))).to_bitmask()
        == 0
}

/// Whether no byte has an escape, one byte after the other.
#[inline(always)]
fn few_are_plain(bytes: &[u8]) -> bool
    ensures { result ≡ are_plain bytes.now }
{
    for &byte in bytes {
        if byte == b'"' || byte == b'\\' || byte < b' ' {
            return false;
        }
    }
    true
}

/// Whether no byte has an escape, eight bytes at a time.
#[inline(always)]
fn many_are_plain(bytes: &[u8]) -> bool
    requires { 8 ≤ length bytes.now }
    ensures { result ≡ are_plain bytes.now }
{
    let last = bytes.len() - 8;
    let mut at = 0;
    while at < last {
        if !eight_are_plain(bytes, at) {
            return false;
        }
        at += 8;
    }
    eight_are_plain(bytes, last)
}

/// Whether no byte has an escape.
#[inline(always)]
pub(crate) fn is_plain(bytes: &[u8]) -> bool
    ensures { result ≡ are_plain bytes.now }
{
    if bytes.len() < 8 {
        few_are_plain(bytes)
    } else {
        many_are_plain(bytes)
    }
}
