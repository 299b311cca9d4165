//! Shown rows as lines of JSON.

ghost use Rattle.std.specs.Prelude.{◌≡◌, ◌++◌, ◌<◌, [], IfOk, OnOk, false, flat_map, map};
ghost use Rattle.std.specs.Fmt.{signed_decimal};
ghost use Rattle.pipe_columns.specs.Frame.{row_at};
ghost use Rattle.pipe_lines.specs.Rows.{frame_rows};
ghost use Rattle.pipe_writers.specs.JsonText.{json_string, json_value, member_head};
ghost use Rattle.lavzimo_rows.specs.Columns.{shown_value};
ghost use Rattle.lavzimo_rows.specs.Texts.{json_field, json_fields, json_line, json_shown};

use crate::cell::{Cell, cell_at};
use crate::columns::{ShownColumn, Shows};
use crate::decimal::append_decimal;
use crate::order::shown_rows;
use crate::shown::Shown;
use itoa::Buffer;
use json::Writer;
use pipe_columns::{AnyValue, Column, DataFrame};
use std::alloc::{AllocError, Global};

/// What is used again for each value.
#[derive(Drop)]
struct Scratch {
    alloc: Global,
    digits: Buffer,
    string: Vec<u8>,
}

/// Puts a JSON string behind a text. The writer fills room ahead of what it writes, so it writes
/// apart from a long text.
fn append_string(text: &mut Vec<u8>, scratch: &mut Scratch, string: &str) -> Result<(), AllocError>
    ensures { OnOk result (text.new.items ≡ text.old.items ++ json_string string.now) }
{
    let mut apart = std::mem::replace(&mut scratch.string, Vec::new(scratch.alloc));
    apart.clear();
    let mut writer = Writer::new(apart);
    writer.string(string)?;
    scratch.string = writer.into_inner();
    text.extend_from_slice(&scratch.string)?;
    Ok(())
}

/// Puts the digits of a number behind a text, by way of 64 bits where it fits them.
fn append_number(text: &mut Vec<u8>, scratch: &mut Scratch, number: i128) -> Result<(), AllocError>
    ensures { OnOk result (text.new.items ≡ text.old.items ++ signed_decimal number) }
{
    let written = match i64::try_from(number) {
        Ok(short) => scratch.digits.format(short),
        Err(_) => scratch.digits.format(number),
    };
    text.extend_from_slice(written.as_bytes())
}

/// Puts a value behind a text.
fn append_value(
    text: &mut Vec<u8>,
    scratch: &mut Scratch,
    value: &AnyValue,
) -> Result<(), AllocError>
    ensures { OnOk result (text.new.items ≡ text.old.items ++ json_value value.now) }
{
    match value {
        AnyValue::Null => text.extend_from_slice(b"null"),
        AnyValue::Boolean(true) => text.extend_from_slice(b"true"),
        AnyValue::Boolean(false) => text.extend_from_slice(b"false"),
        AnyValue::Int(number) => append_number(text, scratch, *number),
        AnyValue::Text(string) => append_string(text, scratch, string.as_str()),
    }
}

/// Puts what a column shows of the row at a place behind a text.
fn append_cell(
    text: &mut Vec<u8>,
    scratch: &mut Scratch,
    columns: &[Column],
    shows: Shows,
    row: usize,
) -> Result<(), AllocError>
    ensures { OnOk result (text.new.items ≡ text.old.items
        ++ json_field shows (shown_value shows (row_at columns.now row))) }
{
    match cell_at(columns, shows, row) {
        Cell::Nothing => text.extend_from_slice(b"null"),
        Cell::Value(value) => append_value(text, scratch, value),
        Cell::Mean(number) => append_decimal(text, &mut scratch.digits, number),
    }
}

/// Puts the head of a member behind a text.
fn append_head(
    text: &mut Vec<u8>,
    scratch: &mut Scratch,
    later: bool,
    name: &str,
) -> Result<(), AllocError>
    ensures { OnOk result (text.new.items ≡ text.old.items ++ member_head later name.now) }
{
    if later {
        text.push(b',')?;
    }
    append_string(text, scratch, name)?;
    text.push(b':')?;
    Ok(())
}

/// Puts a member behind a text: what a column shows of the row at a place, under its name.
fn append_member(
    text: &mut Vec<u8>,
    scratch: &mut Scratch,
    later: bool,
    column: &ShownColumn,
    columns: &[Column],
    row: usize,
) -> Result<(), AllocError>
    ensures { OnOk result (text.new.items ≡ text.old.items ++ (member_head later column.now.name
        ++ json_field column.now.shows
        (shown_value column.now.shows (row_at columns.now row)))) }
{
    append_head(text, scratch, later, column.name.as_str())?;
    append_cell(text, scratch, columns, column.shows, row)
}

/// Puts the members of a row behind a text.
fn append_members(
    text: &mut Vec<u8>,
    scratch: &mut Scratch,
    shown: &[ShownColumn],
    columns: &[Column],
    row: usize,
) -> Result<(), AllocError>
    ensures { OnOk result (text.new.items
        ≡ text.old.items ++ json_fields false shown.now (row_at columns.now row)) }
{
    for i in 0..shown.len() {
        append_member(text, scratch, 0 < i, &shown[i], columns, row)?;
    }
    Ok(())
}

/// Puts the line of a row behind a text.
fn append_line(
    text: &mut Vec<u8>,
    scratch: &mut Scratch,
    shown: &[ShownColumn],
    columns: &[Column],
    row: usize,
) -> Result<(), AllocError>
    ensures { OnOk result (text.new.items
        ≡ text.old.items ++ json_line shown.now (row_at columns.now row)) }
{
    text.push(b'{')?;
    append_members(text, scratch, shown, columns, row)?;
    text.extend_from_slice(b"}\n")
}

/// Puts the lines of rows behind a text.
fn append_lines(
    text: &mut Vec<u8>,
    scratch: &mut Scratch,
    shown: &[ShownColumn],
    columns: &[Column],
    rows: &[usize],
) -> Result<(), AllocError>
    ensures { OnOk result (text.new.items ≡ text.old.items
        ++ flat_map (json_line shown.now) (map (row_at columns.now) rows.now)) }
{
    for &row in rows {
        append_line(text, scratch, shown, columns, row)?;
    }
    Ok(())
}

/// The rows that are shown of a frame as lines of JSON.
pub fn json_text(alloc: Global, shown: &Shown, frame: &DataFrame) -> Result<Vec<u8>, AllocError>
    ensures { IfOk result (λ v. v.items ≡ json_shown shown.now (frame_rows frame.now)) }
{
    let rows = shown_rows(alloc, shown, frame)?;
    let mut scratch = Scratch {
        alloc,
        digits: Buffer::new(),
        string: Vec::new(alloc),
    };
    let mut text = Vec::new(alloc);
    append_lines(
        &mut text,
        &mut scratch,
        shown.columns(),
        frame.columns(),
        &rows,
    )?;
    Ok(text)
}
