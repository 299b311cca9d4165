//! The text of a frame.

ghost use Rattle.std.specs.Prelude.{◌≡◌, ◌<◌, IfOk, map};
ghost use Rattle.pipe_columns.specs.Frame.{row_at};
ghost use Rattle.pipe_csv.specs.Texts.{csv_text, field_of};
ghost use Rattle.pipe_csv.specs.Written.{AddsRecord};

use crate::csv_record::{end_record, write_field, write_value};
use csv::{Writer, WriterBuilder};
use itoa::Buffer;
use pipe_columns::{Column, DataFrame};
use std::alloc::{AllocError, Global};

/// Writes the names of columns as a record.
fn write_header(writer: &mut Writer<Vec<u8>>, columns: &[Column]) -> Result<(), AllocError>
    ensures { AddsRecord writer.old writer.new result (map (λ c. c.name) columns.now) }
{
    for column in columns {
        write_field(writer, column.name().as_bytes())?;
    }
    end_record(writer)
}

/// Writes the row at a place as a record.
fn write_row(
    writer: &mut Writer<Vec<u8>>,
    digits: &mut Buffer,
    frame: &DataFrame,
    row: usize,
) -> Result<(), AllocError>
    requires { row < frame.now.height }
    ensures { let values = row_at frame.now.columns row in
        AddsRecord writer.old writer.new result (map field_of values) }
{
    for column in frame.columns() {
        write_value(writer, digits, &column.values()[row])?;
    }
    end_record(writer)
}

/// The CSV text of a frame: a record of the columns' names, then one for each row. A null is the
/// empty field, which has quotes only where it is alone in its record.
pub fn frame_text(alloc: Global, frame: &DataFrame) -> Result<Vec<u8>, AllocError>
    ensures { IfOk result (λ v. v.items ≡ csv_text frame.now) }
{
    let mut writer = WriterBuilder::new().from_writer(Vec::new(alloc));
    let mut digits = Buffer::new();
    write_header(&mut writer, frame.columns())?;
    for row in 0..frame.height() {
        write_row(&mut writer, &mut digits, frame, row)?;
    }
    match writer.into_inner() {
        Ok(text) => Ok(text),
        Err(_) => Err(AllocError),
    }
}
