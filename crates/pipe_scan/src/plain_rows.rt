//! Plain rows that are gone over one behind the other.

ghost use Rattle.std.specs.Prelude.{◌<◌, ◌≡◌, ◌≤◌, IsTrue, true};
ghost use Rattle.std.specs.List.{list_all};
ghost use Rattle.pipe_scan.specs.Plain.{ArePlainRows};
ghost use Rattle.pipe_scan.specs.Stops.{AreMarked};

use crate::number_rows::skip_number_rows;
use crate::plain_row::skip_plain;
use crate::stops::Stops;

/// Whether all fields are to be numbers.
fn are_numbers(numbers: &[bool]) -> bool
    ensures { IsTrue result → list_all (λ number. number) numbers.now ≡ true }
{
    for i in 0..numbers.len() {
        if !numbers[i] {
            return false;
        }
    }
    true
}

/// Goes over some plain rows from the cursor on, so many at most, and tells how many: over those of numbers many at
/// once.
#[inline(always)]
fn skip_some(text: &[u8], stops: &mut Stops, numbers: &[bool], at_once: bool, most: usize) -> usize
    requires marked { AreMarked text.now stops.old }
    requires known { IsTrue at_once → list_all (λ number. number) numbers.now ≡ true }
    requires some { 0 < most }
    ensures rows { ArePlainRows text.now numbers.now stops.old.cursor stops.new.cursor result }
    ensures few { result ≤ most }
    ensures marked { AreMarked text.now stops.new }
{
    if at_once {
        let (count, next) = skip_number_rows(text, stops.cursor, numbers, most);
        if count > 0 {
            *stops = Stops::new(next);
            return count;
        }
    }
    usize::from(skip_plain(text, stops, numbers))
}

/// Goes over plain rows from the cursor on, so many at most, and tells how many. Of a row that isn't gone over
/// nothing is said.
#[inline(never)]
pub fn skip_plain_rows(text: &[u8], stops: &mut Stops, numbers: &[bool], most: usize) -> usize
    requires { AreMarked text.now stops.old }
    ensures rows { ArePlainRows text.now numbers.now stops.old.cursor stops.new.cursor result }
    ensures few { result ≤ most }
    ensures marked { AreMarked text.now stops.new }
{
    let mut here = Stops::new(stops.cursor);
    let mut at_once = are_numbers(numbers);
    let mut count = 0;
    while count < most {
        let more = skip_some(text, &mut here, numbers, at_once, most - count);
        if more == 0 {
            break;
        }
        at_once = at_once && more > 1;
        count += more;
    }
    *stops = here;
    count
}
