//! Rows that are gone over at once by example.

ghost use Rattle.std.specs.Prelude.{◌≤◌, length};

use pipe_scan::{Stops, skip_plain_rows};

/// How many plain rows of a text are gone over from a place on, so many at most, and where that ends.
fn skipped(text: &[u8], at: usize, numbers: &[bool], most: usize) -> (usize, usize)
    requires { at ≤ length text.now }
{
    let mut stops = Stops::new(at);
    let count = skip_plain_rows(text, &mut stops, numbers, most);
    (count, stops.cursor())
}

/// Whether so many rows of a text are gone over, up to a place, none from there on, and one where one may be.
fn are_gone_over(text: &[u8], numbers: &[bool], count: usize, place: usize) -> bool {
    if place > text.len() || skipped(text, 0, numbers, 9) != (count, place) {
        return false;
    }
    skipped(text, place, numbers, 1) == (0, place) && skipped(text, 0, numbers, 1).0 == count.min(1)
}

/// Whether so many rows before others, which aren't gone over, are gone over, up to a place.
fn are_before_others(rows: &[u8], numbers: &[bool], count: usize, place: usize) -> bool {
    let mut text = [b'x'; 256];
    if rows.len() > 128 {
        return false;
    }
    text[..rows.len()].copy_from_slice(rows);
    are_gone_over(&text, numbers, count, place)
}

/// Rows, how many of them are gone over, and where that ends.
type Rows = (&'static [u8], usize, usize);

/// Whether as many of all these rows are.
fn are_all_before_others(all: &[Rows], numbers: &[bool]) -> bool {
    for (rows, count, place) in all {
        if !are_before_others(rows, numbers, *count, *place) {
            return false;
        }
    }
    true
}

/// Rows of a number and a text.
const ROWS: [Rows; 11] = [
    (b"", 0, 0),
    (b"1,a\n-2,b c\n", 2, 11),
    (b"\n\r\n1,a\r\n\n-20,\n", 2, 14),
    (b"1,a\n-,b\n", 1, 4),
    (b"1,a\n,b\n", 1, 4),
    (b"1,a\n2\n", 1, 4),
    (b"1,a\n2,b,c\n", 1, 4),
    (b"1,a\n2,\"b\"\n", 1, 4),
    (b"1,a\n+2,b\n", 1, 4),
    (b"1,a\n2 ,b\n", 1, 4),
    (b"1,a\n999999999999999999,b\n1000000000000000000,c\n", 2, 25),
];

/// Rows of two numbers.
const NUMBERS: [Rows; 16] = [
    (b"1,2\n-3,44\n", 2, 10),
    (b"1,2\n3,", 1, 4),
    (b"1,999999999999999999\n", 1, 21),
    (b"-999999999999999999,0\n", 1, 22),
    (b"1,2\n1,1000000000000000000\n", 1, 4),
    (b"1,2\n1,--1\n", 1, 4),
    (b"1,2\n1,1-2\n", 1, 4),
    (b"1,2\n1,-\n", 1, 4),
    (b"1,2\n-,1\n", 1, 4),
    (b"1,2\n,1\n", 1, 4),
    (b"1,2\n1,\n", 1, 4),
    (b"1,2\n1,2,3\n", 1, 4),
    (b"1,2\n1\n2\n", 1, 4),
    (b"1,2\n\n3,4\n", 2, 9),
    (b"1,2\r\n3,4\r\n", 2, 9),
    (b"1,2\n\"3\",4\n", 1, 4),
];

/// Rows of one number behind a name.
const COLUMN: &[u8; 77] =
    b"k\n1\n22\n333\n-4\n55\n1\n22\n333\n-4\n55\n1\n22\n333\n-4\n55\n1\n22\n333\n-4\n55\n1\n22\n333\n-4\n55\n";

/// How long a front of the column is, from where on it is gone over, over how many rows at most, over how many it is,
/// and where that ends: not over the last ones, near which no 64 bytes stand.
const PLACES: [(usize, usize, usize, usize, usize); 5] = [
    (77, 2, 99, 21, 64),
    (77, 2, 7, 7, 22),
    (77, 0, 99, 0, 0),
    (75, 11, 99, 21, 74),
    (74, 11, 99, 0, 11),
];

/// Whether the column is gone over from each place, and not where rows have no field.
fn are_gone_over_from_places() -> bool {
    for (length, at, most, count, place) in &PLACES {
        let is = *at <= *length
            && *length <= COLUMN.len()
            && skipped(&COLUMN[..*length], *at, &[true], *most) == (*count, *place);
        if !is {
            return false;
        }
    }
    skipped(COLUMN, 2, &[], 99) == (0, 2)
}

/// Whether all rows are gone over as is due.
pub(crate) fn are_all_gone_over() -> bool {
    are_all_before_others(&ROWS, &[true, false])
        && are_all_before_others(&NUMBERS, &[true, true])
        && are_gone_over_from_places()
}
