//! Any record of a text: scanned where it has no quote, and else read.

ghost use Rattle.std.specs.Prelude.{◌≡◌, IfOk, length};
ghost use Rattle.csv.specs.Records.{fields_of};
ghost use Rattle.pipe_scan.specs.Row.{IsRowAt};
ghost use Rattle.pipe_scan.specs.Stops.{AreMarked};

use crate::quoted::read_record;
use crate::scan::{Scan, scan_next};
use crate::stops::Stops;
use csv::ByteRecord;
use std::alloc::AllocError;

/// The next record.
#[derive(Clone, Copy, Drop)]
pub enum Row {
    /// None is left.
    End,
    /// Its fields lie in the text: where the first begins, and how many there are.
    Plain { start: usize, count: usize },
    /// It has a quote, and was read.
    Quoted,
    /// It has more fields than were asked for, and no quote among those.
    Wide,
}

/// The next record of a text: scanned where it has no quote, and else read into `row`, for which
/// `field` is room. `ends` has room for as many fields as are asked for.
#[inline(always)]
pub fn next_row(
    text: &[u8],
    stops: &mut Stops,
    ends: &mut [usize],
    row: &mut ByteRecord,
    field: &mut Vec<u8>,
) -> Result<Row, AllocError>
    requires { AreMarked text.now stops.old }
    ensures row { IfOk result
        (λ r. IsRowAt text.now stops.old.cursor stops.new.cursor ends.new (fields_of row.new) r) }
    ensures marked { AreMarked text.now stops.new }
    ensures room { length ends.new ≡ length ends.old }
{
    let at = stops.cursor;
    match scan_next(text, stops, ends) {
        Scan::End => Ok(Row::End),
        Scan::Record {
            start,
            count,
            next: _,
        } => Ok(Row::Plain { start, count }),
        Scan::Wide => Ok(Row::Wide),
        Scan::Quote(_) => match read_record(text, at, row, field) {
            Ok(Some(next)) => {
                *stops = Stops::new(next);
                Ok(Row::Quoted)
            }
            Ok(None) => Ok(Row::End),
            Err(error) => Err(error),
        },
    }
}
