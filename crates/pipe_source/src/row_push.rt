//! Rows that were looked over, whose values go to the ends of columns.

ghost use Rattle.std.specs.Prelude.{◌≡◌, ◌≤◌, ◌<◌, [], IfErr, IfOk, List, Ok, OnOk, length, replicate, slice_index_or, vec_len};
ghost use Rattle.std.specs.List.{range_with_len};
ghost use Rattle.csv.specs.Records.{fields_of};
ghost use Rattle.pipe_columns.specs.declared.any_value.AnyValue.{AnyValue};
ghost use Rattle.pipe_csv.specs.CsvRows.{read_row};
ghost use Rattle.narrow_columns.specs.Wanted.{chosen};
ghost use Rattle.pipe_csv.specs.CsvError.{StopsBy};
ghost use Rattle.pipe_csv.specs.Columns.{DoHold, values_from, with_row};
ghost use Rattle.pipe_csv.specs.declared.csv_error.CsvError.TheVariants as csv_error;
ghost use Rattle.pipe_scan.specs.Records.{InOrder, between, cut, records_at};
ghost use Rattle.pipe_scan.specs.Stops.{AreMarked};
ghost use Rattle.pipe_source.specs.Quoted.{AreAhead};
ghost use Rattle.pipe_source.specs.Rows.{AreRowsAt, FirstReads, PushesRow, StopsFirst};

use crate::column_fill::ColumnFill;
use crate::field_at::{push_field, push_field_at};
use crate::quoted_rows::{QuotedRows, next_row};
use crate::wanted_places::wanted_places;
use csv::ByteRecord;
use narrow_columns::is_wanted;
use pipe_columns::Field;
use pipe_csv::CsvError;
use pipe_scan::{Row, Stops};
use std::alloc::Global;

/// Where the field at a place begins and ends in the text.
#[inline(always)]
pub(crate) fn field_bounds(
    text: &[u8],
    start: usize,
    ends: &[usize],
    place: usize,
) -> (usize, usize)
    requires order { InOrder (length text.now) start ends.now }
    requires place { place < length ends.now }
    ensures field { slice_index_or (cut text.now start ends.now) place []
        ≡ between text.now result.0 result.1 }
    ensures order { result.0 ≤ result.1 }
    ensures within { result.1 ≤ length text.now }
{
    let end = ends[place];
    if place == 0 {
        return (start, end);
    }
    (ends[place - 1] + 1, end)
}

/// Adds the wanted values of the fields of a row that lie in the text, each of which reads.
fn push_fields(
    alloc: Global,
    columns: &mut Vec<ColumnFill>,
    text: &[u8],
    start: usize,
    ends: &[usize],
    fields: &[Field],
    wanted: &[bool],
    places: &[usize],
    row: usize,
) -> Result<(), CsvError>
    requires columns { vec_len columns.old ≡ length (chosen wanted.now fields.now) }
    requires places { places.now ≡ chosen wanted.now (range_with_len 0 (length fields.now)) }
    requires order { InOrder (length text.now) start ends.now }
    requires width { length ends.now ≡ length fields.now }
    requires reads { (values : List AnyValue)
        × (read_row 1 row fields.now (cut text.now start ends.now) ≡ Ok values) }
    ensures pushed { IfOk result (λ _. (values : List AnyValue)
        × (read_row 1 row fields.now (cut text.now start ends.now) ≡ Ok values)
        × (columns.new.items
        ≡ with_row (chosen wanted.now values) columns.old.items)) }
    ensures width { vec_len columns.new ≡ length (chosen wanted.now fields.now) }
    ensures stop { IfErr result
        (λ e. StopsBy e (read_row 1 row fields.now (cut text.now start ends.now))) }
{
    for (i, place) in places.iter().enumerate() {
        let (low, high) = field_bounds(text, start, ends, *place);
        let dtype = fields[*place].dtype;
        push_field_at(alloc, &mut columns[i], dtype, text, low, high)?;
    }
    Ok(())
}

/// Adds the wanted values of the fields of a row that was read, each of which reads.
fn push_entry(
    alloc: Global,
    columns: &mut Vec<ColumnFill>,
    entry: &ByteRecord,
    fields: &[Field],
    wanted: &[bool],
    row: usize,
) -> Result<(), CsvError>
    requires columns { vec_len columns.old ≡ length (chosen wanted.now fields.now) }
    requires reads { (values : List AnyValue)
        × (read_row 1 row fields.now (fields_of entry.now) ≡ Ok values) }
    ensures pushed { IfOk result (λ _. (values : List AnyValue)
        × (read_row 1 row fields.now (fields_of entry.now) ≡ Ok values)
        × (columns.new.items
        ≡ with_row (chosen wanted.now values) columns.old.items)) }
    ensures width { vec_len columns.new ≡ length (chosen wanted.now fields.now) }
    ensures stop { IfErr result
        (λ e. StopsBy e (read_row 1 row fields.now (fields_of entry.now))) }
{
    let mut place = 0;
    for (i, field) in fields.iter().enumerate() {
        if is_wanted(wanted, i) {
            push_field(
                alloc,
                &mut columns[place],
                field.dtype,
                entry.get(i).unwrap(),
            )?;
            place += 1;
        }
    }
    Ok(())
}

/// Adds the wanted values of the next row, if there is one, which then reads.
fn push_row(
    alloc: Global,
    columns: &mut Vec<ColumnFill>,
    text: &[u8],
    stops: &mut Stops,
    ends: &mut [usize],
    quoted: &mut QuotedRows,
    most: usize,
    entry: &mut ByteRecord,
    fields: &[Field],
    wanted: &[bool],
    places: &[usize],
    row: usize,
) -> Result<bool, CsvError>
    requires columns { vec_len columns.old ≡ length (chosen wanted.now fields.now) }
    requires places { places.now ≡ chosen wanted.now (range_with_len 0 (length fields.now)) }
    requires marked { AreMarked text.now stops.old }
    requires width { length ends.old ≡ length fields.now }
    requires reads { FirstReads 1 row fields.now (records_at text.now stops.old.cursor) }
    requires ahead { AreAhead text.now quoted.old }
    ensures pushed { IfOk result (λ found.
        PushesRow 1 row fields.now wanted.now text.now stops.old.cursor stops.new.cursor
        columns.old.items columns.new.items found) }
    ensures stop { IfErr result
        (λ e. StopsFirst e 1 row fields.now (records_at text.now stops.old.cursor)) }
    ensures columns { vec_len columns.new ≡ length (chosen wanted.now fields.now) }
    ensures marked { AreMarked text.now stops.new }
    ensures width { length ends.new ≡ length fields.now }
    ensures ahead { OnOk result (AreAhead text.now quoted.new) }
{
    match next_row(alloc, text, stops, ends, quoted, most, entry)? {
        Row::End => Ok(false),
        Row::Plain { start, count } => {
            if count != fields.len() {
                return Err(CsvError::Width { file: 1, row });
            }
            push_fields(
                alloc, columns, text, start, ends, fields, wanted, places, row,
            )?;
            Ok(true)
        }
        Row::Quoted => {
            push_entry(alloc, columns, entry, fields, wanted, row)?;
            Ok(true)
        }
        Row::Wide => Err(CsvError::Width { file: 1, row }),
    }
}

/// Adds the wanted values of so many rows of a text from a place on, which were looked over before.
pub(crate) fn push_rows(
    alloc: Global,
    columns: &mut Vec<ColumnFill>,
    text: &[u8],
    at: usize,
    count: usize,
    fields: &[Field],
    wanted: &[bool],
) -> Result<(), CsvError>
    requires empty { columns.old.items
        ≡ replicate (length (chosen wanted.now fields.now)) [] }
    requires rows { (rows : List (List AnyValue)) × AreRowsAt fields.now text.now at count rows }
    ensures pushed { (rows : List (List AnyValue)) → AreRowsAt fields.now text.now at count rows
        → IfOk result (λ _. columns.new.items
        ≡ chosen wanted.now (values_from 0 fields.now rows)) }
    ensures hold { IfOk result (λ _. DoHold count (chosen wanted.now fields.now)
        columns.new.items) }
    ensures width { IfOk result
        (λ _. vec_len columns.new ≡ length (chosen wanted.now fields.now)) }
    ensures memory { IfErr result (λ e. e ≡ csv_error.Memory) }
{
    let places = wanted_places(alloc, wanted, fields.len())?;
    let mut ends = vec![in alloc; 0; fields.len()]?;
    let mut entry = ByteRecord::new(alloc);
    let mut quoted = QuotedRows::new(alloc);
    let mut stops = Stops::new(at);
    for row in 0..count {
        let found = push_row(
            alloc,
            columns,
            text,
            &mut stops,
            &mut ends,
            &mut quoted,
            count - row,
            &mut entry,
            fields,
            wanted,
            &places,
            row + 1,
        );
        match found {
            Ok(true) => {}
            Ok(false) => unreachable!(),
            Err(error) => return Err(error),
        }
    }
    Ok(())
}
