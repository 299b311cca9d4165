//! Rows without a quote whose fields are marked.

ghost use Rattle.std.specs.Prelude.{◌<◌, ◌≡◌, IfNone, IfSome, IsFalse, IsTrue, List, length, ℕ};
ghost use Rattle.pipe_scan.specs.Plain.{IsPlainRow};
ghost use Rattle.pipe_scan.specs.Stops.{AreMarked};

use crate::plain_field::field_end;
use crate::scan::skip_ends;
use crate::stops::Stops;

/// Goes over the record at the cursor, if it is a plain row.
#[inline(always)]
fn skip_fields(text: &[u8], stops: &mut Stops, numbers: &[bool]) -> Option<()>
    requires marked { AreMarked text.now stops.old }
    requires some { 0 < length numbers.now }
    ensures row { IfSome result (λ _. (start : ℕ) × (ends : List ℕ)
        × IsPlainRow text.now stops.old.cursor stops.new.cursor start numbers.now ends) }
    ensures marked { IfSome result (λ _. AreMarked text.now stops.new) }
{
    skip_ends(text, stops);
    if stops.cursor == text.len() {
        return None;
    }
    let last = numbers.len() - 1;
    for i in 0..last {
        field_end(text, stops, numbers[i], false)?;
    }
    field_end(text, stops, numbers[last], true)?;
    Some(())
}

/// Goes over the record at the cursor, if it is a plain row: it has as many fields as are told of and no quote,
/// the end of a line ends it, each field that is to be a number is a short one, and none is long.
/// Else the cursor stays, and nothing is said of the record.
#[inline(always)]
pub(crate) fn skip_plain(text: &[u8], stops: &mut Stops, numbers: &[bool]) -> bool
    requires { AreMarked text.now stops.old }
    ensures row { IsTrue result → (start : ℕ) × (ends : List ℕ)
        × IsPlainRow text.now stops.old.cursor stops.new.cursor start numbers.now ends }
    ensures as_before { IsFalse result → stops.new.cursor ≡ stops.old.cursor }
    ensures marked { AreMarked text.now stops.new }
{
    let at = stops.cursor;
    if !numbers.is_empty() && skip_fields(text, stops, numbers).is_some() {
        return true;
    }
    *stops = Stops::new(at);
    false
}
