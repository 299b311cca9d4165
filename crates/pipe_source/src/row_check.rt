//! Rows that are looked over: whether each field reads, without a value of it.

ghost use Rattle.std.specs.Prelude.{◌≡◌, ◌≤◌, ◌<◌, IfErr, IfOk, IsTrue, List, Ok, length, take};
ghost use Rattle.std.specs.Str.{IsAscii};
ghost use Rattle.csv.specs.Records.{fields_of};
ghost use Rattle.pipe_columns.specs.declared.any_value.AnyValue.{AnyValue};
ghost use Rattle.pipe_csv.specs.CsvRows.{read_row, read_rows};
ghost use Rattle.pipe_csv.specs.CsvError.{StopsBy};
ghost use Rattle.pipe_scan.specs.Records.{InOrder, cut, records_at};
ghost use Rattle.pipe_scan.specs.Stops.{AreMarked};
ghost use Rattle.pipe_source.specs.Rows.{AreStarts, ChecksRow, StopsFirst};

use crate::field_at::does_read_at;
use crate::known_fields::known_numbers;
use crate::starts::Starts;
use csv::ByteRecord;
use pipe_columns::{DataType, Field};
use pipe_csv::{CsvError, does_read};
use pipe_scan::{Row, Stops, next_row, skip_plain_rows};
use std::alloc::Global;

/// Looks over the fields of a row that lie in the text.
fn check_fields(
    text: &[u8],
    start: usize,
    ends: &[usize],
    fields: &[Field],
    file: usize,
    row: usize,
    is_ascii: bool,
) -> Result<(), CsvError>
    requires order { InOrder (length text.now) start ends.now }
    requires ascii { IsTrue is_ascii → IsAscii text.now }
    requires width { length ends.now ≡ length fields.now }
    ensures reads { IfOk result (λ _. (values : List AnyValue)
        × (read_row file row fields.now (cut text.now start ends.now) ≡ Ok values)) }
    ensures stop { IfErr result
        (λ e. StopsBy e (read_row file row fields.now (cut text.now start ends.now))) }
{
    let mut low = start;
    for (i, field) in fields.iter().enumerate() {
        let high = ends[i];
        if !does_read_at(field.dtype, text, low, high, is_ascii) {
            return Err(CsvError::Field {
                file,
                row,
                column: i + 1,
            });
        }
        low = high + 1;
    }
    Ok(())
}

/// Looks over the fields of a row that was read.
fn check_record(
    entry: &ByteRecord,
    fields: &[Field],
    file: usize,
    row: usize,
) -> Result<(), CsvError>
    ensures reads { IfOk result (λ _. (values : List AnyValue)
        × (read_row file row fields.now (fields_of entry.now) ≡ Ok values)) }
    ensures stop { IfErr result
        (λ e. StopsBy e (read_row file row fields.now (fields_of entry.now))) }
{
    if entry.len() != fields.len() {
        return Err(CsvError::Width { file, row });
    }
    for (i, field) in fields.iter().enumerate() {
        if !does_read(field.dtype, entry.get(i).unwrap()) {
            return Err(CsvError::Field {
                file,
                row,
                column: i + 1,
            });
        }
    }
    Ok(())
}

/// Looks over the next row, if there is one.
fn check_row(
    text: &[u8],
    stops: &mut Stops,
    ends: &mut [usize],
    entry: &mut ByteRecord,
    bytes: &mut Vec<u8>,
    fields: &[Field],
    file: usize,
    row: usize,
    is_ascii: bool,
) -> Result<bool, CsvError>
    requires marked { AreMarked text.now stops.old }
    requires ascii { IsTrue is_ascii → IsAscii text.now }
    requires width { length ends.old ≡ length fields.now }
    ensures reads { IfOk result (λ found.
        ChecksRow file row fields.now text.now stops.old.cursor stops.new.cursor found) }
    ensures stop { IfErr result
        (λ e. StopsFirst e file row fields.now (records_at text.now stops.old.cursor)) }
    ensures marked { AreMarked text.now stops.new }
    ensures width { length ends.new ≡ length fields.now }
{
    match next_row(text, stops, ends, entry, bytes)? {
        Row::End => Ok(false),
        Row::Plain { start, count } => {
            if count != fields.len() {
                return Err(CsvError::Width { file, row });
            }
            check_fields(text, start, ends, fields, file, row, is_ascii)?;
            Ok(true)
        }
        Row::Quoted => {
            check_record(entry, fields, file, row)?;
            Ok(true)
        }
        Row::Wide => Err(CsvError::Width { file, row }),
    }
}

/// Whether some field is a text.
fn have_texts(fields: &[Field]) -> bool {
    fields.iter().any(|field| field.dtype == DataType::String)
}

/// Whether the bytes of a text are known to be ASCII: it is looked through where some field is a text and all
/// its rows are wanted.
pub(crate) fn is_known_ascii(text: &[u8], fields: &[Field], most: usize) -> bool
    ensures { IsTrue result → IsAscii text.now }
{
    most == usize::MAX && have_texts(fields) && text.is_ascii()
}

/// Looks over the rows of a text from a place on, so many at most, and tells how many there are,
/// and where each chunk of a size begins.
pub(crate) fn check_rows(
    alloc: Global,
    text: &[u8],
    at: usize,
    fields: &[Field],
    file: usize,
    most: usize,
    size: usize,
) -> Result<(usize, Vec<usize>), CsvError>
    requires within { at ≤ length text.now }
    requires size { 0 < size }
    ensures reads { IfOk result (λ r. (rows : List (List AnyValue))
        × (read_rows file 1 fields.now (take most (records_at text.now at)) ≡ Ok rows)
        × (length rows ≡ r.0)) }
    ensures starts { IfOk result (λ r. AreStarts text.now at size r.0 r.1.items) }
    ensures stop { IfErr result
        (λ e. StopsBy e (read_rows file 1 fields.now (take most (records_at text.now at)))) }
{
    let is_ascii = is_known_ascii(text, fields, most);
    let numbers = known_numbers(alloc, fields, is_ascii)?;
    let mut ends = vec![in alloc; 0; fields.len()]?;
    let mut entry = ByteRecord::new(alloc);
    let mut bytes = Vec::new(alloc);
    let mut stops = Stops::new(at);
    let mut starts = Starts::new(alloc, size);
    let mut row = 0;
    while row < most {
        let start = stops.cursor();
        let found = check_row(
            text,
            &mut stops,
            &mut ends,
            &mut entry,
            &mut bytes,
            fields,
            file,
            row + 1,
            is_ascii,
        );
        match found {
            Ok(true) => starts.note(start)?,
            Ok(false) => return Ok((row, starts.places)),
            Err(error) => return Err(error),
        }
        row += 1;
        let over = skip_plain_rows(text, &mut stops, &numbers, starts.until.min(most - row));
        starts.pass(over);
        row += over;
    }
    Ok((most, starts.places))
}
