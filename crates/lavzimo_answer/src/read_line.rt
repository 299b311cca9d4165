//! How it is told that files are not read to their end.

ghost use Rattle.std.specs.Prelude.{◌≡◌, IfOk, string_bytes};
ghost use Rattle.lavzimo_answer.specs.Lines as spec;
ghost use Rattle.lavzimo_answer.specs.Looks.{look_seen};
ghost use Rattle.lavzimo_answer.specs.Names.{names_seen};

use crate::look::Look;
use crate::names::Names;
use pipe_columns::{DataType, Field, Text};
use pipe_csv::CsvError;
use std::alloc::{AllocError, Global};

/// The name by which a file is told.
pub(crate) fn told_name<'a>(name: &'a str) -> &'a str
    ensures { result.now ≡ spec.told_name name.now }
{
    if name == "-" { "standard input" } else { name }
}

/// The name of a file, which are counted from 1.
fn file_name<'a>(names: &'a Names, file: usize) -> &'a str
    ensures { result.now ≡ spec.file_name (names_seen names.now) file }
{
    match names.files.get(file.saturating_sub(1)) {
        Some(name) => told_name(name.as_str()),
        None => "",
    }
}

/// The name of a column, which are counted from 1.
fn column_name<'a>(columns: &'a [Field], column: usize) -> &'a str
    ensures { result.now ≡ (spec.column_in columns.now column).name }
{
    match columns.get(column.saturating_sub(1)) {
        Some(field) => field.name.as_str(),
        None => "",
    }
}

/// The type of a column.
fn column_type(columns: &[Field], column: usize) -> DataType
    ensures { result ≡ (spec.column_in columns.now column).dtype }
{
    match columns.get(column.saturating_sub(1)) {
        Some(field) => field.dtype,
        None => DataType::String,
    }
}

/// What a field is that doesn't read as a type.
fn misread(dtype: DataType) -> &'static str
    ensures { result.now ≡ spec.misread dtype }
{
    match dtype {
        DataType::Boolean => "neither true nor false",
        DataType::Date => "no day number",
        DataType::String => "no UTF-8",
        _ => "no whole number",
    }
}

/// How it is told that a field doesn't read, or in row 0, the header, that a column isn't there
/// once.
fn field_text(
    alloc: Global,
    file: &str,
    row: usize,
    column: &str,
    dtype: DataType,
    look: &Look,
) -> Result<String, AllocError>
    ensures { IfOk result (λ s. string_bytes s ≡ spec.field_text file.now row
        (record { name = column.now; dtype = dtype }) (look_seen look.now)) }
{
    let more = look.more.as_str();
    if row == 0 {
        let how = look.how.as_str();
        return format!(in alloc; "{file} has {how} column {column}{more}");
    }
    let misread = misread(dtype);
    format!(in alloc; "{file}, row {row}, column {column}: {misread}{more}")
}

/// How it is told that files are not read to their end.
pub(crate) fn read_text(
    alloc: Global,
    names: &Names,
    error: &CsvError,
    look: &Look,
) -> Result<String, AllocError>
    ensures { IfOk result (λ s. string_bytes s ≡ spec.read_text (names_seen names.now) error.now
        (look_seen look.now)) }
{
    match error {
        CsvError::Missing { file } => {
            format!(in alloc; "{}: no such file", file_name(names, *file))
        }
        CsvError::Header { file } => {
            format!(in alloc; "{} has no header", file_name(names, *file))
        }
        CsvError::Width { file, row } => {
            let name = file_name(names, *file);
            format!(in alloc; "{name}, row {row}: not as many fields as the header has")
        }
        CsvError::Field { file, row, column } => {
            let fields = names.columns.fields();
            let name = column_name(fields, *column);
            let dtype = column_type(fields, *column);
            field_text(alloc, file_name(names, *file), *row, name, dtype, look)
        }
        CsvError::Input => format!(in alloc; "{} can't be read", look.how.as_str()),
        CsvError::TooLarge => format!(in alloc; "{} is too large", look.how.as_str()),
        CsvError::Memory => String::from_str(alloc, "out of memory"),
    }
}
