//! Records without a quote, from stop to stop.

ghost use Rattle.std.specs.Prelude.{◌+◌, ◌<◌, ◌≡◌, ◌≤◌, [], IfNone, IfSome, false, length, slice_index, take, true, ℕ};
ghost use Rattle.pipe_scan.specs.InRecord.{Reads};
ghost use Rattle.pipe_scan.specs.Lines.{ends_line};
ghost use Rattle.pipe_scan.specs.NextRecord.{next_at};
ghost use Rattle.pipe_scan.specs.NextStop.{IsSeen};
ghost use Rattle.pipe_scan.specs.PlainField.{EndsAs};
ghost use Rattle.pipe_scan.specs.Scan.{Scans, StandsBehind};
ghost use Rattle.pipe_scan.specs.Stops.{AreMarked, is_stop};

use crate::stops::{Stops, next_stop, seen_stop, take_stop};

/// What stands at a place of a text of CSV.
#[derive(Clone, Copy, Drop)]
pub enum Scan {
    /// No record.
    End,
    /// A record without a quote: where its first field begins, how many fields it has, and where
    /// what follows it begins.
    Record {
        start: usize,
        count: usize,
        next: usize,
    },
    /// A record of more fields than were asked for.
    Wide,
    /// A quote, at this place.
    Quote(usize),
}

/// Moves the cursor to the first byte that ends no line.
#[inline(always)]
pub(crate) fn skip_ends(text: &[u8], stops: &mut Stops)
    requires { AreMarked text.now stops.old }
    ensures least { stops.old.cursor ≤ stops.new.cursor }
    ensures skipped { next_at text.now stops.old.cursor ≡ next_at text.now stops.new.cursor }
    ensures first { stops.new.cursor < length text.now
        → ends_line (slice_index text.now stops.new.cursor) ≡ false }
    ensures marked { AreMarked text.now stops.new }
{
    while stops.cursor < text.len() {
        let byte = text[stops.cursor];
        if byte != b'\r' && byte != b'\n' {
            return;
        }
        match take_stop(text, stops) {
            Some(_end) => {}
            None => *stops = Stops::new(stops.cursor + 1),
        }
    }
}

/// Scans the fields at the cursor that commas end, as far as these are seen at once, and fewer than there is
/// room for: their ends, and how many they are.
#[inline(always)]
fn scan_parts(text: &[u8], stops: &mut Stops, ends: &mut [usize]) -> usize
    requires { AreMarked text.now stops.old }
    ensures reads { (at : ℕ) (start : ℕ) → Reads text.now at start [] stops.old.cursor
        → Reads text.now at start (take result ends.new) stops.new.cursor }
    ensures few { result ≤ length ends.new }
    ensures least { stops.old.cursor ≤ stops.new.cursor }
    ensures room { length ends.new ≡ length ends.old }
    ensures marked { AreMarked text.now stops.new }
{
    let last = ends.len().saturating_sub(1);
    for i in 0..last {
        let mut next = *stops;
        match seen_stop(text, &mut next, false) {
            Some(stop) if text[stop] == b',' => ends[i] = stop,
            _ => return i,
        }
        *stops = next;
    }
    last
}

/// Scans the field at the cursor, if it is to be the last one, the end of a line ends it and that is seen at
/// once: its end.
#[inline(always)]
fn scan_last(text: &[u8], stops: &mut Stops, is_last: bool) -> Option<usize>
    requires { AreMarked text.now stops.old }
    ensures last { IfSome result (λ _. is_last ≡ true) }
    ensures seen { IfSome result (λ stop. IsSeen is_stop text.now stops.old.cursor stop) }
    ensures line { IfSome result (λ stop. EndsAs true (slice_index text.now stop)) }
    ensures behind { IfSome result (λ stop. stops.new.cursor ≡ stop + 1) }
    ensures as_before { IfNone result (stops.new ≡ stops.old) }
    ensures marked { AreMarked text.now stops.new }
{
    if !is_last {
        return None;
    }
    let mut next = *stops;
    match seen_stop(text, &mut next, false) {
        Some(stop) if text[stop] == b'\n' || text[stop] == b'\r' => {
            *stops = next;
            Some(stop)
        }
        _ => None,
    }
}

/// Scans what is left of a record that begins at a place, behind some of its fields.
fn scan_rest(
    text: &[u8],
    stops: &mut Stops,
    ends: &mut [usize],
    start: usize,
    before: usize,
) -> Scan
    requires marked { AreMarked text.now stops.old }
    requires few { before ≤ length ends.old }
    ensures scans { (at : ℕ) → at ≤ stops.old.cursor → at < length text.now
        → Reads text.now at start (take before ends.old) stops.old.cursor
        → Scans text.now at ends.new result }
    ensures room { length ends.new ≡ length ends.old }
    ensures marked { AreMarked text.now stops.new }
    ensures behind { StandsBehind result stops.new.cursor }
{
    let mut count = before;
    'fields: loop {
        let stop = next_stop(text, stops);
        if stop == text.len() {
            break;
        }
        let byte = text[stop];
        if byte == b',' {
            if count == ends.len() {
                return Scan::Wide;
            }
            ends[count] = stop;
            count += 1;
        } else if byte == b'\n' || byte == b'\r' {
            if count == ends.len() {
                return Scan::Wide;
            }
            ends[count] = stop;
            return Scan::Record {
                start,
                count: count + 1,
                next: stop + 1,
            };
        } else if byte == b'"' {
            return Scan::Quote(stop);
        }
    }
    if count == ends.len() {
        return Scan::Wide;
    }
    ends[count] = text.len();
    Scan::Record {
        start,
        count: count + 1,
        next: text.len(),
    }
}

/// Scans the record from the cursor on: the ends of its fields, if it has no more of them than
/// there is room for and no quote. Behind a record the cursor stands where the next one begins.
#[inline(always)]
pub fn scan_next(text: &[u8], stops: &mut Stops, ends: &mut [usize]) -> Scan
    requires { AreMarked text.now stops.old }
    ensures scans { Scans text.now stops.old.cursor ends.new result }
    ensures room { length ends.new ≡ length ends.old }
    ensures marked { AreMarked text.now stops.new }
    ensures behind { StandsBehind result stops.new.cursor }
{
    skip_ends(text, stops);
    let start = stops.cursor;
    if start == text.len() {
        return Scan::End;
    }
    let count = scan_parts(text, stops, ends);
    match scan_last(text, stops, count + 1 == ends.len()) {
        Some(stop) => {
            ends[count] = stop;
            Scan::Record {
                start,
                count: count + 1,
                next: stop + 1,
            }
        }
        None => {
            let mut rest = *stops;
            let scan = scan_rest(text, &mut rest, ends, start, count);
            *stops = rest;
            scan
        }
    }
}
