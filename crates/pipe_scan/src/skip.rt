//! Records that are gone over, of which only the number of their fields is looked at.

ghost use Rattle.std.specs.Prelude.{◌≡◌, IfOk, length};
ghost use Rattle.pipe_scan.specs.Skipped.{Skips, StopsFor, count_of};
ghost use Rattle.pipe_scan.specs.StepOver.{StepsOver};
ghost use Rattle.pipe_scan.specs.Stops.{AreMarked};

use crate::row::{Row, next_row};
use crate::stops::Stops;
use csv::ByteRecord;
use std::alloc::AllocError;

/// How far records were gone over.
#[derive(Clone, Copy, Debug, Drop)]
pub enum Skip {
    /// Over as many as were asked for.
    Done,
    /// Over so many, behind which the text has no more.
    End(usize),
    /// Over so many, behind which one has another number of fields.
    OtherWidth(usize),
}

/// What comes next.
#[derive(Clone, Copy, Drop)]
enum Step {
    /// No record.
    End,
    /// A record of as many fields as were asked for, which was gone over.
    Over,
    /// A record of another number of fields.
    OtherWidth,
}

/// Goes over the next record, if it has as many fields as there is room for.
#[inline(always)]
fn step_over(
    text: &[u8],
    stops: &mut Stops,
    ends: &mut [usize],
    row: &mut ByteRecord,
    field: &mut Vec<u8>,
) -> Result<Step, AllocError>
    requires { AreMarked text.now stops.old }
    ensures step { IfOk result
        (λ s. StepsOver text.now stops.old.cursor stops.new.cursor (length ends.old) s) }
    ensures marked { AreMarked text.now stops.new }
    ensures room { length ends.new ≡ length ends.old }
{
    let at = stops.cursor;
    let fits = match next_row(text, stops, ends, row, field)? {
        Row::End => {
            *stops = Stops::new(at);
            return Ok(Step::End);
        }
        Row::Plain { start: _, count } => count == ends.len(),
        Row::Quoted => row.len() == ends.len(),
        Row::Wide => false,
    };
    if fits {
        return Ok(Step::Over);
    }
    *stops = Stops::new(at);
    Ok(Step::OtherWidth)
}

/// Goes over so many records of as many fields as there is room for, or up to the first of another
/// number of fields, where the cursor then stands.
pub fn skip_rows(
    text: &[u8],
    stops: &mut Stops,
    ends: &mut [usize],
    row: &mut ByteRecord,
    field: &mut Vec<u8>,
    most: usize,
) -> Result<Skip, AllocError>
    requires { AreMarked text.now stops.old }
    ensures skips { IfOk result (λ s. let next = stops.new.cursor in
        Skips text.now stops.old.cursor next (length ends.old) (count_of most s)) }
    ensures stop { IfOk result
        (λ s. StopsFor text.now stops.new.cursor (length ends.old) most s) }
    ensures marked { AreMarked text.now stops.new }
    ensures room { length ends.new ≡ length ends.old }
{
    for count in 0..most {
        match step_over(text, stops, ends, row, field)? {
            Step::Over => {}
            Step::End => return Ok(Skip::End(count)),
            Step::OtherWidth => return Ok(Skip::OtherWidth(count)),
        }
    }
    Ok(Skip::Done)
}
