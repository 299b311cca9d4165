//! A CSV record, written field by field by the writer with the default settings.

ghost use Rattle.std.specs.Fmt.{signed_decimal};
ghost use Rattle.pipe_csv.specs.Texts.{field_of};
ghost use Rattle.pipe_csv.specs.Written.{AddsField, EndsRecord};

use csv::Writer;
use itoa::Buffer;
use pipe_columns::AnyValue;
use std::alloc::AllocError;

/// Writes the next field of a record.
pub(crate) fn write_field(writer: &mut Writer<Vec<u8>>, field: &[u8]) -> Result<(), AllocError>
    ensures { AddsField writer.old writer.new result field.now }
{
    match writer.write_field(field) {
        Ok(()) => Ok(()),
        Err(_) => Err(AllocError),
    }
}

/// Ends a record. One with no byte in it gets a quoted empty field.
pub(crate) fn end_record(writer: &mut Writer<Vec<u8>>) -> Result<(), AllocError>
    ensures { EndsRecord writer.old writer.new result }
{
    match writer.end_record() {
        Ok(()) => Ok(()),
        Err(_) => Err(AllocError),
    }
}

/// Writes a number as the next field, by way of 64 bits where it fits them.
fn write_number(
    writer: &mut Writer<Vec<u8>>,
    digits: &mut Buffer,
    number: i128,
) -> Result<(), AllocError>
    ensures { AddsField writer.old writer.new result (signed_decimal number) }
{
    let written = match i64::try_from(number) {
        Ok(short) => digits.format(short),
        Err(_) => digits.format(number),
    };
    write_field(writer, written.as_bytes())
}

/// Writes a value as the next field.
pub(crate) fn write_value(
    writer: &mut Writer<Vec<u8>>,
    digits: &mut Buffer,
    value: &AnyValue,
) -> Result<(), AllocError>
    ensures { AddsField writer.old writer.new result (field_of value.now) }
{
    match value {
        AnyValue::Null => write_field(writer, b""),
        AnyValue::Boolean(true) => write_field(writer, b"true"),
        AnyValue::Boolean(false) => write_field(writer, b"false"),
        AnyValue::Int(number) => write_number(writer, digits, *number),
        AnyValue::Text(text) => write_field(writer, text.as_bytes()),
    }
}
