//! Rows that were looked over, of which the values of some columns go to the ends of these, by their
//! places in a row.

ghost use Rattle.std.specs.Prelude.{◌≡◌, ◌≤◌, ◌<◌, [], IfErr, IfOk, List, Ok, OnOk, Some, length, replicate, vec_len};
ghost use Rattle.csv.specs.Records.{fields_of};
ghost use Rattle.pipe_columns.specs.declared.any_value.AnyValue.{AnyValue};
ghost use Rattle.pipe_csv.specs.CsvRows.{read_row};
ghost use Rattle.pipe_csv.specs.Columns.{DoHold, values_from, with_row};
ghost use Rattle.pipe_csv.specs.declared.csv_error.CsvError.TheVariants as csv_error;
ghost use Rattle.pipe_scan.specs.Records.{InOrder, cut, records_at};
ghost use Rattle.pipe_scan.specs.Stops.{AreMarked};
ghost use Rattle.pipe_source.specs.LaidRows.{AreLaidAt, PushesLaid};
ghost use Rattle.pipe_source.specs.Layout.{ArePlacedIn, FitsLayout, laid};
ghost use Rattle.pipe_source.specs.NamedRows.{fields_at};
ghost use Rattle.pipe_source.specs.Quoted.{AreAhead};
ghost use Rattle.pipe_source.specs.Rows.{FirstReads, StopsFirst};

use crate::column_fill::ColumnFill;
use crate::field_at::{push_field, push_field_at};
use crate::layout::Layout;
use crate::quoted_rows::{QuotedRows, next_row};
use crate::row_push::field_bounds;
use csv::ByteRecord;
use pipe_columns::Field;
use pipe_csv::CsvError;
use pipe_scan::{Row, Stops};
use std::alloc::{AllocError, Global};

/// Adds the values of the columns of a row whose fields lie in the text, each of which reads.
fn push_named_fields(
    alloc: Global,
    fills: &mut Vec<ColumnFill>,
    text: &[u8],
    start: usize,
    ends: &[usize],
    columns: &[Field],
    places: &[usize],
    row: usize,
) -> Result<(), AllocError>
    requires columns { vec_len fills.old ≡ length columns.now }
    requires placed { ArePlacedIn columns.now (length ends.now) places.now }
    requires order { InOrder (length text.now) start ends.now }
    requires reads { (values : List AnyValue) × (read_row 1 row columns.now
        (fields_at places.now (cut text.now start ends.now)) ≡ Ok values) }
    ensures pushed { IfOk result (λ _. (values : List AnyValue)
        × (read_row 1 row columns.now (fields_at places.now (cut text.now start ends.now))
        ≡ Ok values)
        × (fills.new.items ≡ with_row values fills.old.items)) }
    ensures width { vec_len fills.new ≡ length columns.now }
{
    for (i, column) in columns.iter().enumerate() {
        let (low, high) = field_bounds(text, start, ends, places[i]);
        push_field_at(alloc, &mut fills[i], column.dtype, text, low, high)?;
    }
    Ok(())
}

/// Adds the values of the columns of a row that was read, each of which reads.
fn push_named_record(
    alloc: Global,
    fills: &mut Vec<ColumnFill>,
    entry: &ByteRecord,
    columns: &[Field],
    places: &[usize],
    row: usize,
) -> Result<(), AllocError>
    requires columns { vec_len fills.old ≡ length columns.now }
    requires placed { ArePlacedIn columns.now (length (fields_of entry.now)) places.now }
    requires reads { (values : List AnyValue) × (read_row 1 row columns.now
        (fields_at places.now (fields_of entry.now)) ≡ Ok values) }
    ensures pushed { IfOk result (λ _. (values : List AnyValue)
        × (read_row 1 row columns.now (fields_at places.now (fields_of entry.now)) ≡ Ok values)
        × (fills.new.items ≡ with_row values fills.old.items)) }
    ensures width { vec_len fills.new ≡ length columns.now }
{
    for (i, column) in columns.iter().enumerate() {
        let field = entry.get(places[i]).unwrap();
        push_field(alloc, &mut fills[i], column.dtype, field)?;
    }
    Ok(())
}

/// Adds the values of the columns of the next row, if there is one, which then reads.
fn push_named_row(
    alloc: Global,
    fills: &mut Vec<ColumnFill>,
    text: &[u8],
    stops: &mut Stops,
    ends: &mut [usize],
    quoted: &mut QuotedRows,
    most: usize,
    entry: &mut ByteRecord,
    columns: &[Field],
    layout: &Layout,
    row: usize,
) -> Result<bool, CsvError>
    requires columns { vec_len fills.old ≡ length columns.now }
    requires fit { FitsLayout columns.now layout.now }
    requires marked { AreMarked text.now stops.old }
    requires width { length ends.old ≡ layout.now.count }
    requires reads { FirstReads 1 row columns.now
        (laid (Some layout.now) (records_at text.now stops.old.cursor)) }
    requires ahead { AreAhead text.now quoted.old }
    ensures pushed { IfOk result (λ found. PushesLaid (Some layout.now) 1 row columns.now
        text.now stops.old.cursor stops.new.cursor fills.old.items fills.new.items found) }
    ensures stop { IfErr result (λ e. StopsFirst e 1 row columns.now
        (laid (Some layout.now) (records_at text.now stops.old.cursor))) }
    ensures columns { vec_len fills.new ≡ length columns.now }
    ensures marked { AreMarked text.now stops.new }
    ensures width { length ends.new ≡ layout.now.count }
    ensures ahead { OnOk result (AreAhead text.now quoted.new) }
{
    let places = &layout.places;
    match next_row(alloc, text, stops, ends, quoted, most, entry)? {
        Row::End => Ok(false),
        Row::Plain { start, count } => {
            if count != layout.count {
                return Err(CsvError::Width { file: 1, row });
            }
            push_named_fields(
                alloc,
                fills,
                text,
                start,
                ends,
                columns,
                &layout.places,
                row,
            )?;
            Ok(true)
        }
        Row::Quoted => {
            if entry.len() != layout.count {
                return Err(CsvError::Width { file: 1, row });
            }
            push_named_record(alloc, fills, entry, columns, places, row)?;
            Ok(true)
        }
        Row::Wide => Err(CsvError::Width { file: 1, row }),
    }
}

/// Adds the values of the columns of so many rows of a text from a place on, which were looked over
/// before.
pub(crate) fn push_named_rows(
    alloc: Global,
    fills: &mut Vec<ColumnFill>,
    text: &[u8],
    at: usize,
    count: usize,
    columns: &[Field],
    layout: &Layout,
) -> Result<(), CsvError>
    requires empty { fills.old.items ≡ replicate (length columns.now) [] }
    requires fit { FitsLayout columns.now layout.now }
    requires rows { (rows : List (List AnyValue))
        × AreLaidAt (Some layout.now) columns.now text.now at count rows }
    ensures pushed { (rows : List (List AnyValue))
        → AreLaidAt (Some layout.now) columns.now text.now at count rows
        → IfOk result (λ _. fills.new.items ≡ values_from 0 columns.now rows) }
    ensures hold { IfOk result (λ _. DoHold count columns.now fills.new.items) }
    ensures width { IfOk result (λ _. vec_len fills.new ≡ length columns.now) }
    ensures memory { IfErr result (λ e. e ≡ csv_error.Memory) }
{
    let mut ends = vec![in alloc; 0; layout.count]?;
    let mut entry = ByteRecord::new(alloc);
    let mut quoted = QuotedRows::new(alloc);
    let mut stops = Stops::new(at);
    for row in 0..count {
        let found = push_named_row(
            alloc,
            fills,
            text,
            &mut stops,
            &mut ends,
            &mut quoted,
            count - row,
            &mut entry,
            columns,
            layout,
            row + 1,
        );
        match found {
            Ok(true) => {}
            Ok(false) => unreachable!(),
            Err(error) => return Err(error),
        }
    }
    Ok(())
}
