//! Fields without a quote whose ends are marked.

ghost use Rattle.std.specs.Prelude.{◌+◌, ◌<◌, ◌≡◌, ◌≤◌, IfSome, IsFalse, IsTrue, Some, length};
ghost use Rattle.pipe_scan.specs.NextStop.{IsSeen};
ghost use Rattle.pipe_scan.specs.Plain.{IsAsKnown, IsShort};
ghost use Rattle.pipe_scan.specs.PlainField.{EndsAs, IsField, is_mark};
ghost use Rattle.pipe_scan.specs.Records.{between};
ghost use Rattle.pipe_scan.specs.Stops.{AreMarked, is_no_digit};

use crate::numbers::MOST_DIGITS;
use crate::stops::{Stops, seen_stop};

/// Whether a byte ends the last field of a row, or another one.
#[inline(always)]
fn ends_as(byte: u8, is_last: bool) -> bool
    ensures { IsTrue result → EndsAs is_last byte }
{
    if is_last {
        byte == b'\n' || byte == b'\r'
    } else {
        byte == b','
    }
}

/// Whether a field without quotes can't have a byte.
#[inline(never)]
fn is_mark(byte: u8) -> bool
    ensures { result ≡ is_mark byte }
{
    byte == b',' || byte == b'"' || byte == b'\r' || byte == b'\n'
}

/// Whether so many digits, and then no digit, stand from a place on, by the marked bytes.
#[inline(always)]
fn are_digits(text: &[u8], stops: &Stops, first: usize, count: usize) -> bool
    requires marked { AreMarked text.now stops.now }
    requires low { stops.now.low ≤ first }
    requires near { first + count < stops.now.low + 64 }
    ensures { IsTrue result → IsSeen is_no_digit text.now first (first + count) }
{
    let ahead = stops.others >> (first - stops.low);
    ahead != 0 && ahead.trailing_zeros() as usize == count
}

/// The end of the field at the cursor, where it is a short number and its end is marked; the cursor then stands
/// behind the byte there. None says nothing.
#[inline(always)]
fn number_end(text: &[u8], stops: &mut Stops, is_last: bool) -> Option<usize>
    requires { AreMarked text.now stops.old }
    ensures field { IfSome result (λ end. IsField text.now is_last stops.old.cursor end) }
    ensures short { IfSome result (λ end. IsShort (between text.now stops.old.cursor end)) }
    ensures cursor { IfSome result (λ end. stops.new.cursor ≡ end + 1) }
    ensures marked { IfSome result (λ _. AreMarked text.now stops.new) }
{
    let low = stops.cursor;
    let end = seen_stop(text, stops, true)?;
    let first = low + usize::from(text[low] == b'-');
    if first >= end || end - first > MOST_DIGITS || !ends_as(text[end], is_last) {
        return None;
    }
    if are_digits(text, stops, first, end - first) {
        Some(end)
    } else {
        None
    }
}

/// The end of the field at the cursor, where it has no quote and its end is marked; the cursor then stands
/// behind the byte there. None says nothing.
#[inline(always)]
pub(crate) fn text_end(text: &[u8], stops: &mut Stops, is_last: bool) -> Option<usize>
    requires { AreMarked text.now stops.old }
    ensures field { IfSome result (λ end. IsField text.now is_last stops.old.cursor end) }
    ensures cursor { IfSome result (λ end. stops.new.cursor ≡ end + 1) }
    ensures marked { IfSome result (λ _. AreMarked text.now stops.new) }
{
    loop {
        let stop = seen_stop(text, stops, true)?;
        if ends_as(text[stop], is_last) {
            return Some(stop);
        }
        if is_mark(text[stop]) {
            return None;
        }
    }
}

/// The end of the field at the cursor, which is to be a short number or any text, where it has no quote and
/// its end is marked; the cursor then stands behind the byte there. None says nothing.
#[inline(always)]
pub(crate) fn field_end(
    text: &[u8],
    stops: &mut Stops,
    is_number: bool,
    is_last: bool,
) -> Option<usize>
    requires { AreMarked text.now stops.old }
    ensures field { IfSome result (λ end. IsField text.now is_last stops.old.cursor end) }
    ensures known { IfSome result
        (λ end. IsAsKnown is_number (between text.now stops.old.cursor end)) }
    ensures cursor { IfSome result (λ end. stops.new.cursor ≡ end + 1) }
    ensures marked { IfSome result (λ _. AreMarked text.now stops.new) }
{
    if is_number {
        number_end(text, stops, is_last)
    } else {
        text_end(text, stops, is_last)
    }
}
