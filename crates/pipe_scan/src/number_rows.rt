//! Rows whose fields are all short numbers, 64 bytes at a time.

ghost use Rattle.std.specs.Prelude.{◌+◌, ◌<◌, ◌==◌, ◌≡◌, ◌≤◌, IfSome, IsTrue, List, false, length, true, ℕ};
ghost use Rattle.std.specs.List.{list_all};
ghost use Rattle.pipe_scan.specs.NumberBlock.{AreBelowGap, AreLegalEnds, AreLines, GoesRow, HasNoLongRun, IsNumberBlock};
ghost use Rattle.pipe_scan.specs.Plain.{ArePlainRows, IsPlainRow};
ghost use Rattle.pipe_scan.specs.Stops.{marks};

use crate::stops::{TOGETHER, others_at};
use std::simd::prelude::*;

/// The bytes equal to one among 64.
#[inline(always)]
fn equal_at(text: &[u8], at: usize, byte: u8) -> u64
    requires { at + 64 ≤ length text.now }
    ensures { result ≡ marks (λ c. c == byte) text.now at 64 }
{
    u8x64::from_slice(&text[at..])
        .simd_eq(u8x64::splat(byte))
        .to_bitmask()
}

/// The first bits of runs that are longer than a short number has digits.
#[inline(always)]
fn long_runs(digits: u64) -> u64
    ensures { result ≡ 0 → HasNoLongRun digits }
{
    let two = digits & digits >> 1;
    let four = two & two >> 2;
    let eight = four & four >> 4;
    let sixteen = eight & eight >> 8;
    sixteen & four >> 15
}

/// The bits below the first that isn't set.
#[inline(always)]
fn below_gap(bits: u64) -> u64
    ensures { AreBelowGap bits result }
{
    let gaps = !bits;
    if gaps == 0 {
        return u64::MAX;
    }
    bits & (gaps - 1)
}

/// The ends of fields before the first byte that stands where no row of short numbers has it.
#[inline(always)]
fn legal_ends(digits: u64, ends: u64, signs: u64) -> u64
    ensures { AreLegalEnds digits ends signs result }
{
    if long_runs(digits) != 0 {
        return 0;
    }
    let begins = ends << 1 | 1;
    ends & below_gap(digits | signs & begins | ends & digits << 1)
}

/// The ends of fields among 64 bytes where a row begins, as far as rows of short numbers go, and those that end
/// lines.
#[inline(always)]
fn number_ends(text: &[u8], at: usize) -> (u64, u64)
    requires { at + 64 ≤ length text.now }
    ensures block { IsNumberBlock text.now at at result.0 }
    ensures lines { AreLines text.now at result.0 result.1 }
{
    let lines = equal_at(text, at, b'\n');
    let ends = equal_at(text, at, b',') | lines;
    let ends = legal_ends(!others_at(text, at), ends, equal_at(text, at, b'-'));
    (ends, ends & lines)
}

/// Where the row behind a place ends, if so many numbers are a row, and the ends of fields and of lines
/// behind it.
#[inline(always)]
fn number_row(
    text: &[u8],
    at: usize,
    place: usize,
    ends: u64,
    lines: u64,
    numbers: &[bool],
) -> Option<(usize, u64, u64)>
    requires block { IsNumberBlock text.now at place ends }
    requires lines { AreLines text.now at ends lines }
    requires known { list_all (λ b. b) numbers.now ≡ true }
    requires some { 0 < length numbers.now }
    ensures { IfSome result (λ r. GoesRow text.now at place r.0 r.1 r.2 numbers.now) }
{
    if lines == 0 {
        return None;
    }
    let fields = ends & (lines ^ (lines - 1));
    if fields.count_ones() as usize != numbers.len() {
        return None;
    }
    let next = at + lines.trailing_zeros() as usize + 1;
    Some((next, ends ^ fields, lines & (lines - 1)))
}

/// Goes over rows of short numbers among 64 bytes.
#[inline(always)]
fn block_rows(text: &[u8], at: usize, numbers: &[bool], most: usize) -> (usize, usize)
    requires within { at + 64 ≤ length text.now }
    requires known { list_all (λ b. b) numbers.now ≡ true }
    requires some { 0 < length numbers.now }
    ensures rows { ArePlainRows text.now numbers.now at result.1 result.0 }
    ensures few { result.0 ≤ most }
    ensures within { result.1 ≤ length text.now }
    ensures further { 0 < result.0 → at < result.1 }
{
    let (mut ends, mut lines) = number_ends(text, at);
    let mut place = at;
    for count in 0..most {
        match number_row(text, at, place, ends, lines, numbers) {
            Some((next, ends_behind, lines_behind)) => {
                place = next;
                ends = ends_behind;
                lines = lines_behind;
            }
            None => return (count, place),
        }
    }
    (most, place)
}

/// Goes over plain rows whose fields are all short numbers, from a place on, so many at most: tells how many,
/// and where the next one begins. It may stop before any row that it doesn't see at once, and says nothing of it.
pub(crate) fn skip_number_rows(
    text: &[u8],
    at: usize,
    numbers: &[bool],
    most: usize,
) -> (usize, usize)
    requires within { at ≤ length text.now }
    requires known { list_all (λ b. b) numbers.now ≡ true }
    ensures rows { ArePlainRows text.now numbers.now at result.1 result.0 }
    ensures few { result.0 ≤ most }
    ensures within { result.1 ≤ length text.now }
{
    let mut count = 0;
    let mut place = at;
    if numbers.is_empty() {
        return (count, place);
    }
    while count < most && text.len() - place >= TOGETHER {
        let (more, next) = block_rows(text, place, numbers, most - count);
        if more == 0 {
            break;
        }
        count += more;
        place = next;
    }
    (count, place)
}
