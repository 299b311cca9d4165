//! Rows as lines of CSV.

ghost use Rattle.std.specs.Prelude.{◌≡◌, ◌++◌, ◌+◌, ◌<◌, ◌≤◌, ℕ, List, [], length, map, IfOk};
ghost use Rattle.pipe_columns.specs.Frame.{FitsSchema, row_at};
ghost use Rattle.pipe_csv.specs.Texts.{field_of};
ghost use Rattle.pipe_csv.specs.Written.{AddsRecord, HasWritten};
ghost use Rattle.pipe_writers.specs.CsvLines.{csv_head, csv_line, csv_shape};
ghost use Rattle.pipe_writers.specs.CsvWritten.{WroteLines};
ghost use Rattle.pipe_lines.specs.Lines.{GoesOn};
ghost use Rattle.pipe_lines.specs.Rows.{names_of, frame_rows};

use crate::csv_record::{end_record, write_field, write_value};
use csv::{Writer, WriterBuilder};
use itoa::Buffer;
use pipe_columns::{DataFrame, Field, Schema};
use pipe_lines::{Lines, Piece};
use std::alloc::AllocError;

/// Lines of CSV, behind a line of the names where it is wanted.
#[derive(Drop)]
pub struct CsvLines {
    pub(crate) schema: Schema,
    pub(crate) include_header: bool,
}

impl CsvLines {
    /// The lines of rows of a schema; there is no line of the names without `include_header`.
    pub fn new(schema: Schema, include_header: bool) -> CsvLines
        ensures schema { result.schema ≡ schema }
        ensures header { result.include_header ≡ include_header }
    {
        CsvLines {
            schema,
            include_header,
        }
    }
}

/// A CSV writer behind a text.
fn begin(text: Vec<u8>) -> Writer<Vec<u8>>
    ensures { HasWritten result text.items [] }
{
    WriterBuilder::new().from_writer(text)
}

/// The text that a writer has written.
fn end(writer: Writer<Vec<u8>>) -> Result<Vec<u8>, AllocError>
    ensures { (text : List ℕ) → HasWritten writer text [] → IfOk result (λ v. v.items ≡ text) }
{
    match writer.into_inner() {
        Ok(text) => Ok(text),
        Err(_) => Err(AllocError),
    }
}

/// Writes the names of fields as a record.
fn write_names(writer: &mut Writer<Vec<u8>>, fields: &[Field]) -> Result<(), AllocError>
    ensures { AddsRecord writer.old writer.new result (names_of fields.now) }
{
    for field in fields {
        write_field(writer, field.name.as_bytes())?;
    }
    end_record(writer)
}

/// Writes the row at a place as a record.
fn write_row(
    writer: &mut Writer<Vec<u8>>,
    digits: &mut Buffer,
    frame: &DataFrame,
    row: usize,
) -> Result<(), AllocError>
    requires { row < frame.now.height }
    ensures { let values = row_at frame.now.columns row in
        AddsRecord writer.old writer.new result (map field_of values) }
{
    for column in frame.columns() {
        write_value(writer, digits, &column.values()[row])?;
    }
    end_record(writer)
}

/// Writes the rows from a place on, until the text is so long or the frame ends, and says which
/// row is the next.
fn write_rows(
    writer: &mut Writer<Vec<u8>>,
    frame: &DataFrame,
    from: usize,
    most: usize,
) -> Result<usize, AllocError>
    requires { from ≤ frame.now.height }
    ensures wrote { (old : List ℕ) → HasWritten writer.old old []
        → IfOk result (λ next. WroteLines (frame_rows frame.now) from next old writer.new) }
    ensures further { IfOk result (λ next. from < frame.now.height → from < next) }
    ensures within { IfOk result (λ next. next ≤ frame.now.height) }
    ensures long { (text : List ℕ) → HasWritten writer.new text []
        → IfOk result (λ next. next < frame.now.height → most ≤ length text) }
{
    let mut digits = Buffer::new();
    for row in from..frame.height() {
        write_row(writer, &mut digits, frame, row)?;
        if most <= writer.get_ref().len() {
            return Ok(row + 1);
        }
    }
    Ok(frame.height())
}

impl Lines for CsvLines {
    ghost shape = { λ l. csv_shape l.include_header l.schema };

    fn schema(&self) -> &Schema {
        &self.schema
    }

    fn add_head(&self, text: Vec<u8>) -> Result<Vec<u8>, AllocError> {
        if !self.include_header {
            return Ok(text);
        }
        let mut writer = begin(text);
        write_names(&mut writer, self.schema.fields())?;
        end(writer)
    }

    fn add_lines(
        &self,
        text: Vec<u8>,
        frame: &DataFrame,
        from: usize,
        most: usize,
    ) -> Result<Piece, AllocError> {
        let mut writer = begin(text);
        let next = write_rows(&mut writer, frame, from, most)?;
        let text = end(writer)?;
        Ok(Piece { text, next })
    }
}
