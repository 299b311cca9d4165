//! Rows of which the fields of some columns are looked over, by their places: whether each reads,
//! without a value of it.

ghost use Rattle.std.specs.Prelude.{◌≡◌, ◌≤◌, ◌<◌, IfErr, IfOk, IsTrue, List, Ok, Some, length, take};
ghost use Rattle.std.specs.Str.{IsAscii};
ghost use Rattle.csv.specs.Records.{fields_of};
ghost use Rattle.pipe_columns.specs.declared.any_value.AnyValue.{AnyValue};
ghost use Rattle.pipe_csv.specs.CsvRows.{read_row, read_rows};
ghost use Rattle.pipe_csv.specs.CsvError.{StopsBy};
ghost use Rattle.pipe_scan.specs.Records.{InOrder, cut, records_at};
ghost use Rattle.pipe_scan.specs.Stops.{AreMarked};
ghost use Rattle.pipe_source.specs.LaidRows.{ChecksLaid};
ghost use Rattle.pipe_source.specs.Layout.{ArePlacedIn, FitsLayout, laid, picked};
ghost use Rattle.pipe_source.specs.NamedRows.{fields_at};
ghost use Rattle.pipe_source.specs.Rows.{AreStarts, StopsFirst};

use crate::field_at::does_read_at;
use crate::known_fields::known_columns;
use crate::layout::Layout;
use crate::row_check::is_known_ascii;
use crate::row_push::field_bounds;
use crate::starts::Starts;
use csv::ByteRecord;
use pipe_columns::Field;
use pipe_csv::{CsvError, does_read};
use pipe_scan::{Row, Stops, next_row, skip_plain_rows};
use std::alloc::Global;

/// Looks over the columns of a row whose fields lie in the text.
fn check_named_fields(
    text: &[u8],
    start: usize,
    ends: &[usize],
    columns: &[Field],
    places: &[usize],
    file: usize,
    row: usize,
    is_ascii: bool,
) -> Result<(), CsvError>
    requires order { InOrder (length text.now) start ends.now }
    requires ascii { IsTrue is_ascii → IsAscii text.now }
    requires placed { ArePlacedIn columns.now (length ends.now) places.now }
    ensures reads { IfOk result (λ _. (values : List AnyValue)
        × (read_row file row columns.now (fields_at places.now (cut text.now start ends.now))
        ≡ Ok values)) }
    ensures stop { IfErr result (λ e. StopsBy e
        (read_row file row columns.now (fields_at places.now (cut text.now start ends.now)))) }
{
    for (i, column) in columns.iter().enumerate() {
        let (low, high) = field_bounds(text, start, ends, places[i]);
        if !does_read_at(column.dtype, text, low, high, is_ascii) {
            return Err(CsvError::Field {
                file,
                row,
                column: i + 1,
            });
        }
    }
    Ok(())
}

/// Looks over the columns of a row of so many fields that lie in the text.
fn check_named_plain(
    text: &[u8],
    start: usize,
    count: usize,
    ends: &[usize],
    columns: &[Field],
    layout: &Layout,
    file: usize,
    row: usize,
    is_ascii: bool,
) -> Result<(), CsvError>
    requires order { InOrder (length text.now) start (take count ends.now) }
    requires ascii { IsTrue is_ascii → IsAscii text.now }
    requires fit { FitsLayout columns.now layout.now }
    requires few { count ≤ length ends.now }
    requires width { length ends.now ≡ layout.now.count }
    ensures reads { IfOk result (λ _. (values : List AnyValue)
        × (read_row file row columns.now
        (picked layout.now (cut text.now start (take count ends.now))) ≡ Ok values)) }
    ensures stop { IfErr result (λ e. StopsBy e (read_row file row columns.now
        (picked layout.now (cut text.now start (take count ends.now))))) }
{
    if count != layout.count {
        return Err(CsvError::Width { file, row });
    }
    let places = &layout.places;
    check_named_fields(text, start, ends, columns, places, file, row, is_ascii)
}

/// Looks over the columns of a row that was read.
fn check_named_record(
    entry: &ByteRecord,
    columns: &[Field],
    places: &[usize],
    file: usize,
    row: usize,
) -> Result<(), CsvError>
    requires placed { ArePlacedIn columns.now (length (fields_of entry.now)) places.now }
    ensures reads { IfOk result (λ _. (values : List AnyValue)
        × (read_row file row columns.now (fields_at places.now (fields_of entry.now))
        ≡ Ok values)) }
    ensures stop { IfErr result (λ e. StopsBy e
        (read_row file row columns.now (fields_at places.now (fields_of entry.now)))) }
{
    for (i, column) in columns.iter().enumerate() {
        if !does_read(column.dtype, entry.get(places[i]).unwrap()) {
            return Err(CsvError::Field {
                file,
                row,
                column: i + 1,
            });
        }
    }
    Ok(())
}

/// Looks over the columns of the next row, if there is one.
fn check_named_row(
    text: &[u8],
    stops: &mut Stops,
    ends: &mut [usize],
    entry: &mut ByteRecord,
    bytes: &mut Vec<u8>,
    columns: &[Field],
    layout: &Layout,
    file: usize,
    row: usize,
    is_ascii: bool,
) -> Result<bool, CsvError>
    requires marked { AreMarked text.now stops.old }
    requires ascii { IsTrue is_ascii → IsAscii text.now }
    requires fit { FitsLayout columns.now layout.now }
    requires width { length ends.old ≡ layout.now.count }
    ensures reads { IfOk result (λ found. ChecksLaid (Some layout.now) file row columns.now
        text.now stops.old.cursor stops.new.cursor found) }
    ensures stop { IfErr result (λ e. StopsFirst e file row columns.now
        (laid (Some layout.now) (records_at text.now stops.old.cursor))) }
    ensures marked { AreMarked text.now stops.new }
    ensures width { length ends.new ≡ layout.now.count }
{
    match next_row(text, stops, ends, entry, bytes)? {
        Row::End => Ok(false),
        Row::Plain { start, count } => {
            check_named_plain(
                text, start, count, ends, columns, layout, file, row, is_ascii,
            )?;
            Ok(true)
        }
        Row::Quoted => {
            if entry.len() != layout.count {
                return Err(CsvError::Width { file, row });
            }
            check_named_record(entry, columns, &layout.places, file, row)?;
            Ok(true)
        }
        Row::Wide => Err(CsvError::Width { file, row }),
    }
}

/// Looks over the columns of the rows of a text from a place on, so many at most, and tells how many
/// there are, and where each chunk of a size begins.
pub(crate) fn check_named_rows(
    alloc: Global,
    text: &[u8],
    at: usize,
    columns: &[Field],
    layout: &Layout,
    file: usize,
    most: usize,
    size: usize,
) -> Result<(usize, Vec<usize>), CsvError>
    requires within { at ≤ length text.now }
    requires size { 0 < size }
    requires fit { FitsLayout columns.now layout.now }
    ensures reads { IfOk result (λ r. (rows : List (List AnyValue))
        × (read_rows file 1 columns.now
        (take most (laid (Some layout.now) (records_at text.now at))) ≡ Ok rows)
        × (length rows ≡ r.0)) }
    ensures starts { IfOk result (λ r. AreStarts text.now at size r.0 r.1.items) }
    ensures stop { IfErr result (λ e. StopsBy e (read_rows file 1 columns.now
        (take most (laid (Some layout.now) (records_at text.now at))))) }
{
    let is_ascii = is_known_ascii(text, columns, most);
    let numbers = known_columns(alloc, columns, layout, is_ascii)?;
    let mut ends = vec![in alloc; 0; layout.count]?;
    let mut entry = ByteRecord::new(alloc);
    let mut bytes = Vec::new(alloc);
    let mut stops = Stops::new(at);
    let mut starts = Starts::new(alloc, size);
    let mut row = 0;
    while row < most {
        let start = stops.cursor();
        let found = check_named_row(
            text,
            &mut stops,
            &mut ends,
            &mut entry,
            &mut bytes,
            columns,
            layout,
            file,
            row + 1,
            is_ascii,
        );
        match found {
            Ok(true) => starts.note(start)?,
            Ok(false) => return Ok((row, starts.places)),
            Err(error) => return Err(error),
        }
        row += 1;
        let over = skip_plain_rows(text, &mut stops, &numbers, starts.until.min(most - row));
        starts.pass(over);
        row += over;
    }
    Ok((most, starts.places))
}
