//! The stops of a text, and its bytes that are no digits, 64 bytes at a time.

ghost use Rattle.std.specs.Prelude.{◌+◌, ◌<◌, ◌≡◌, ◌≤◌, IfNone, IfSome, length, min};
ghost use Rattle.pipe_scan.specs.NextStop.{HasNone, IsNextStop, IsSeen};
ghost use Rattle.pipe_scan.specs.Stops.{AreMarked, is_no_digit, is_stop, marks};

use std::simd::prelude::*;

/// How many bytes are looked at together.
pub(crate) const TOGETHER: usize = 64;

/// A cursor in a text, and marks of up to 64 bytes from a place on that isn't behind the cursor: of the stops
/// from the cursor on, and of the bytes that are no digits, where these are wanted.
#[derive(Clone, Copy, Drop)]
pub struct Stops {
    pub(crate) cursor: usize,
    pub(crate) low: usize,
    pub(crate) stops: u64,
    pub(crate) others: u64,
}

impl Stops {
    /// A cursor at a place; nothing is marked.
    pub fn new(cursor: usize) -> Stops
        ensures { result ≡ record { cursor = cursor; low = cursor; stops = 0; others = 0 } }
    {
        Stops {
            cursor,
            low: cursor,
            stops: 0,
            others: 0,
        }
    }

    /// The place from which the next record is looked for.
    pub fn cursor(&self) -> usize
        ensures { result ≡ self.now.cursor }
    {
        self.cursor
    }
}

/// The stops among 64 bytes.
#[inline(always)]
fn stops_at(text: &[u8], at: usize) -> u64
    requires { at + 64 ≤ length text.now }
    ensures { result ≡ marks is_stop text.now at 64 }
{
    u8x64::from_slice(&text[at..])
        .simd_le(u8x64::splat(b','))
        .to_bitmask()
}

/// The bytes that are no digits among 64.
#[inline(always)]
pub(crate) fn others_at(text: &[u8], at: usize) -> u64
    requires { at + 64 ≤ length text.now }
    ensures { result ≡ marks is_no_digit text.now at 64 }
{
    let digits = u8x64::from_slice(&text[at..]) - u8x64::splat(b'0');
    digits.simd_ge(u8x64::splat(10)).to_bitmask()
}

/// A cursor at a place, with the marks of the stops from there on.
#[inline(always)]
pub(crate) fn stops_from(text: &[u8], at: usize) -> Stops
    requires { at + 64 ≤ length text.now }
    ensures { result ≡ record {
      cursor = at;
      low = at;
      stops = marks is_stop text.now at 64;
      others = 0;
    } }
{
    Stops {
        cursor: at,
        low: at,
        stops: stops_at(text, at),
        others: 0,
    }
}

/// The first stop that is marked, if there is one; the cursor then stands behind it.
#[inline(always)]
pub(crate) fn take_stop(text: &[u8], stops: &mut Stops) -> Option<usize>
    requires { AreMarked text.now stops.old }
    ensures seen { IfSome result (λ stop. IsSeen is_stop text.now stops.old.cursor stop) }
    ensures cursor { IfSome result (λ stop. stops.new.cursor ≡ stop + 1) }
    ensures none { (m : AreMarked text.now stops.old)
        → IfNone result (HasNone is_stop text.now stops.old.cursor (stops.old.low + m.stops.count)) }
    ensures as_before { IfNone result (stops.new ≡ stops.old) }
    ensures marked { AreMarked text.now stops.new }
    ensures low { stops.new.low ≡ stops.old.low }
    ensures near { IfSome result (λ stop. stop < stops.new.low + 64) }
{
    if stops.stops == 0 {
        return None;
    }
    let stop = stops.low + stops.stops.trailing_zeros() as usize;
    stops.stops &= stops.stops - 1;
    stops.cursor = stop + 1;
    Some(stop)
}

/// Marks the bytes from the cursor on, if there are 64: the stops, and those that are no digits where they are
/// wanted.
#[inline(always)]
fn mark_from(text: &[u8], stops: &mut Stops, others: bool) -> bool
    requires { AreMarked text.now stops.old }
    ensures marked { AreMarked text.now stops.new }
    ensures cursor { stops.new.cursor ≡ stops.old.cursor }
    ensures low { stops.new.low ≤ stops.old.cursor }
{
    let at = stops.cursor;
    if text.len() - at < TOGETHER {
        return false;
    }
    *stops = stops_from(text, at);
    if others {
        stops.others = others_at(text, at);
    }
    true
}

/// The next stop, where it is marked or among the next 64 bytes; the cursor then stands behind it. None
/// says nothing. Bytes that are no digits are marked where they are wanted.
#[inline(always)]
pub(crate) fn seen_stop(text: &[u8], stops: &mut Stops, others: bool) -> Option<usize>
    requires { AreMarked text.now stops.old }
    ensures seen { IfSome result (λ place. IsSeen is_stop text.now stops.old.cursor place) }
    ensures cursor { IfSome result (λ place. stops.new.cursor ≡ place + 1) }
    ensures low { IfSome result (λ _. stops.new.low ≤ stops.old.cursor) }
    ensures near { IfSome result (λ place. place < stops.new.low + 64) }
    ensures marked { IfSome result (λ _. AreMarked text.now stops.new) }
{
    if let Some(stop) = take_stop(text, stops) {
        return Some(stop);
    }
    if mark_from(text, stops, others) {
        take_stop(text, stops)
    } else {
        None
    }
}

/// The next stop, a byte at a time.
fn near_stop(text: &[u8], at: usize) -> usize
    requires { at ≤ length text.now }
    ensures { IsNextStop text.now at result }
{
    for i in at..text.len() {
        if text[i] <= b',' {
            return i;
        }
    }
    text.len()
}

/// The next stop near the end of the text, where nothing is marked.
fn last_stop(text: &[u8], stops: &mut Stops) -> usize
    requires { AreMarked text.now stops.old }
    ensures stop { IsNextStop text.now stops.old.cursor result }
    ensures marked { AreMarked text.now stops.new }
    ensures cursor { stops.new.cursor ≡ min (result + 1) (length text.now) }
{
    let stop = near_stop(text, stops.cursor);
    *stops = Stops::new(text.len().min(stop + 1));
    stop
}

/// The next stop, where none is marked.
fn far_stop(text: &[u8], stops: &mut Stops) -> usize
    requires { AreMarked text.now stops.old }
    ensures stop { IsNextStop text.now stops.old.cursor result }
    ensures marked { AreMarked text.now stops.new }
    ensures cursor { stops.new.cursor ≡ min (result + 1) (length text.now) }
{
    while text.len() - stops.cursor >= TOGETHER {
        *stops = stops_from(text, stops.cursor);
        if let Some(stop) = take_stop(text, stops) {
            return stop;
        }
        *stops = Stops::new(stops.cursor + TOGETHER);
    }
    last_stop(text, stops)
}

/// The next stop of a text.
#[inline(always)]
pub(crate) fn next_stop(text: &[u8], stops: &mut Stops) -> usize
    requires { AreMarked text.now stops.old }
    ensures stop { IsNextStop text.now stops.old.cursor result }
    ensures marked { AreMarked text.now stops.new }
    ensures cursor { stops.new.cursor ≡ min (result + 1) (length text.now) }
{
    match take_stop(text, stops) {
        Some(stop) => stop,
        None => far_stop(text, stops),
    }
}
