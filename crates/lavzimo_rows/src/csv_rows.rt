//! Shown rows as CSV.

ghost use Rattle.std.specs.Prelude.{◌≡◌, ◌++◌, [], ◌<◌, List, ℕ, IfOk, OnOk, flat_map, map};
ghost use Rattle.std.specs.Fmt.{signed_decimal};
ghost use Rattle.pipe_columns.specs.Frame.{row_at};
ghost use Rattle.pipe_csv.specs.Texts.{field_of, line_of};
ghost use Rattle.pipe_csv.specs.Written.{AddsField, AddsRecord, EndsRecord, HasWritten};
ghost use Rattle.pipe_lines.specs.Rows.{frame_rows};
ghost use Rattle.lavzimo_rows.specs.Cells.{number_of};
ghost use Rattle.lavzimo_rows.specs.Columns.{shown_value};
ghost use Rattle.lavzimo_rows.specs.Decimal.{decimal_text};
ghost use Rattle.lavzimo_rows.specs.Texts.{column_names, csv_field, csv_fields, csv_line, csv_shown};

use crate::cell::{Cell, cell_at};
use crate::columns::{ShownColumn, Shows};
use crate::decimal::append_decimal;
use crate::mean::Millionths;
use crate::order::shown_rows;
use crate::shown::Shown;
use csv::{Writer, WriterBuilder};
use itoa::Buffer;
use pipe_columns::{AnyValue, Column, DataFrame};
use std::alloc::{AllocError, Global};

/// What is used again for each field.
#[derive(Drop)]
struct Scratch {
    digits: Buffer,
    decimal: Vec<u8>,
}

/// Writes the next field of a record.
fn write_field(writer: &mut Writer<Vec<u8>>, field: &[u8]) -> Result<(), AllocError>
    ensures { AddsField writer.old writer.new result field.now }
{
    match writer.write_field(field) {
        Ok(()) => Ok(()),
        Err(_) => Err(AllocError),
    }
}

/// Ends a record. One with no byte in it gets a quoted empty field.
fn end_record(writer: &mut Writer<Vec<u8>>) -> Result<(), AllocError>
    ensures { EndsRecord writer.old writer.new result }
{
    match writer.end_record() {
        Ok(()) => Ok(()),
        Err(_) => Err(AllocError),
    }
}

/// Writes a whole number as the next field, by way of 64 bits where it fits them.
fn write_number(
    writer: &mut Writer<Vec<u8>>,
    scratch: &mut Scratch,
    number: i128,
) -> Result<(), AllocError>
    ensures { AddsField writer.old writer.new result (signed_decimal number) }
{
    let written = match i64::try_from(number) {
        Ok(short) => scratch.digits.format(short),
        Err(_) => scratch.digits.format(number),
    };
    write_field(writer, written.as_bytes())
}

/// Writes a value as the next field.
fn write_value(
    writer: &mut Writer<Vec<u8>>,
    scratch: &mut Scratch,
    value: &AnyValue,
) -> Result<(), AllocError>
    ensures { AddsField writer.old writer.new result (field_of value.now) }
{
    match value {
        AnyValue::Null => write_field(writer, b""),
        AnyValue::Boolean(true) => write_field(writer, b"true"),
        AnyValue::Boolean(false) => write_field(writer, b"false"),
        AnyValue::Int(number) => write_number(writer, scratch, *number),
        AnyValue::Text(text) => write_field(writer, text.as_bytes()),
    }
}

/// Writes a number of millionths as the next field.
fn write_decimal(
    writer: &mut Writer<Vec<u8>>,
    scratch: &mut Scratch,
    number: Millionths,
) -> Result<(), AllocError>
    requires { number.rest < 1000000 }
    ensures { AddsField writer.old writer.new result (decimal_text (number_of number)) }
{
    scratch.decimal.clear();
    append_decimal(&mut scratch.decimal, &mut scratch.digits, number)?;
    write_field(writer, &scratch.decimal)
}

/// Writes what a column shows of the row at a place as the next field.
fn write_cell(
    writer: &mut Writer<Vec<u8>>,
    scratch: &mut Scratch,
    columns: &[Column],
    shows: Shows,
    row: usize,
) -> Result<(), AllocError>
    ensures { AddsField writer.old writer.new result
        (csv_field shows (shown_value shows (row_at columns.now row))) }
{
    match cell_at(columns, shows, row) {
        Cell::Nothing => write_field(writer, b""),
        Cell::Value(value) => write_value(writer, scratch, value),
        Cell::Mean(number) => write_decimal(writer, scratch, number),
    }
}

/// Writes the row at a place as a record.
fn write_row(
    writer: &mut Writer<Vec<u8>>,
    scratch: &mut Scratch,
    shown: &[ShownColumn],
    columns: &[Column],
    row: usize,
) -> Result<(), AllocError>
    ensures { AddsRecord writer.old writer.new result
        (csv_fields shown.now (row_at columns.now row)) }
{
    for column in shown {
        write_cell(writer, scratch, columns, column.shows, row)?;
    }
    end_record(writer)
}

/// Writes the names of columns as a record.
fn write_names(writer: &mut Writer<Vec<u8>>, shown: &[ShownColumn]) -> Result<(), AllocError>
    ensures { AddsRecord writer.old writer.new result (column_names shown.now) }
{
    for column in shown {
        write_field(writer, column.name.as_bytes())?;
    }
    end_record(writer)
}

/// Writes rows, each as a record.
fn write_rows(
    writer: &mut Writer<Vec<u8>>,
    scratch: &mut Scratch,
    shown: &[ShownColumn],
    columns: &[Column],
    rows: &[usize],
) -> Result<(), AllocError>
    ensures { (text : List ℕ) → HasWritten writer.old text [] → OnOk result (HasWritten writer.new
        (text ++ flat_map (csv_line shown.now) (map (row_at columns.now) rows.now)) []) }
{
    for &row in rows {
        write_row(writer, scratch, shown, columns, row)?;
    }
    Ok(())
}

/// A writer into an empty text.
fn begin(alloc: Global) -> Writer<Vec<u8>>
    ensures { HasWritten result [] [] }
{
    WriterBuilder::new().from_writer(Vec::new(alloc))
}

/// The text that a writer has written.
fn end(writer: Writer<Vec<u8>>) -> Result<Vec<u8>, AllocError>
    ensures { (text : List ℕ) → HasWritten writer text [] → IfOk result (λ v. v.items ≡ text) }
{
    match writer.into_inner() {
        Ok(text) => Ok(text),
        Err(_) => Err(AllocError),
    }
}

/// The rows that are shown of a frame as CSV, behind a line of names.
pub fn csv_text(alloc: Global, shown: &Shown, frame: &DataFrame) -> Result<Vec<u8>, AllocError>
    ensures { IfOk result (λ v. v.items ≡ csv_shown shown.now (frame_rows frame.now)) }
{
    let rows = shown_rows(alloc, shown, frame)?;
    let mut scratch = Scratch {
        digits: Buffer::new(),
        decimal: Vec::new(alloc),
    };
    let mut writer = begin(alloc);
    write_names(&mut writer, shown.columns())?;
    write_rows(
        &mut writer,
        &mut scratch,
        shown.columns(),
        frame.columns(),
        &rows,
    )?;
    end(writer)
}
