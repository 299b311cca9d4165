//! Fields where they stand in a text. One that writes a short number is read many digits at once,
//! and each other one as any field.

ghost use Rattle.std.specs.Prelude.{◌≡◌, ◌≤◌, ◌++◌, ◌∷◌, [], IfOk, IfSome, IsTrue, Some, is_some, length, true};
ghost use Rattle.std.specs.Str.{IsAscii};
ghost use Rattle.pipe_columns.specs.AnyValue.{fits_number};
ghost use Rattle.pipe_columns.specs.declared.any_value.AnyValue.{AnyValue};
ghost use Rattle.pipe_columns.specs.declared.any_value.AnyValue.TheVariants as av;
ghost use Rattle.pipe_columns.specs.declared.data_type.DataType.TheVariants as dt;
ghost use Rattle.pipe_csv.specs.Fields.{read_field};
ghost use Rattle.pipe_scan.specs.Records.{between};

use crate::column_fill::ColumnFill;
use pipe_columns::{AnyValue, DataType};
use pipe_csv::{does_read, read_field};
use pipe_scan::field_number;
use std::alloc::{AllocError, Global};

/// Whether a number of 64 bits is in the range of a type.
#[inline(always)]
fn is_in_range(number: i64, dtype: DataType) -> bool
    ensures { result ≡ fits_number number dtype }
{
    match dtype {
        DataType::Boolean | DataType::String => false,
        DataType::Int8 => number >= -128 && number <= 127,
        DataType::Int16 => number >= -32768 && number <= 32767,
        DataType::Int32 | DataType::Date => number >= -2147483648 && number <= 2147483647,
        DataType::Int64 | DataType::Int128 => true,
        DataType::UInt8 => number >= 0 && number <= 255,
        DataType::UInt16 => number >= 0 && number <= 65535,
        DataType::UInt32 => number >= 0 && number <= 4294967295,
        DataType::UInt64 => number >= 0,
    }
}

/// The number that a field writes, where it is short and in the range of the type. None says
/// nothing of the field.
#[inline(always)]
fn short_number(dtype: DataType, text: &[u8], low: usize, high: usize) -> Option<i64>
    requires order { low ≤ high }
    requires within { high ≤ length text.now }
    ensures { IfSome result
        (λ n. read_field dtype (between text.now low high) ≡ Some (av.Int n)) }
{
    if dtype == DataType::String {
        return None;
    }
    match field_number(text, low, high) {
        Some(number) if is_in_range(number, dtype) => Some(number),
        _ => None,
    }
}

/// Whether the field between two places of a text reads as a value of a type.
#[inline(always)]
fn does_read_as(dtype: DataType, text: &[u8], low: usize, high: usize) -> bool
    requires order { low ≤ high }
    requires within { high ≤ length text.now }
    ensures { result ≡ is_some (read_field dtype (between text.now low high)) }
{
    short_number(dtype, text, low, high).is_some() || does_read(dtype, &text[low..high])
}

/// Whether the field between two places of a text, which may be known to be ASCII, reads as a value of a
/// type. The types of most fields have code of their own.
#[inline(always)]
pub(crate) fn does_read_at(
    dtype: DataType,
    text: &[u8],
    low: usize,
    high: usize,
    is_ascii: bool,
) -> bool
    requires order { low ≤ high }
    requires within { high ≤ length text.now }
    requires ascii { IsTrue is_ascii → IsAscii text.now }
    ensures { result ≡ is_some (read_field dtype (between text.now low high)) }
{
    match dtype {
        DataType::Int64 => does_read_as(DataType::Int64, text, low, high),
        DataType::String => is_ascii || does_read(DataType::String, &text[low..high]),
        _ => does_read_as(dtype, text, low, high),
    }
}

/// Adds the text of a field that reads as one: the empty field is null.
#[inline(always)]
fn push_text(column: &mut ColumnFill, field: &[u8]) -> Result<(), AllocError>
    requires { is_some (read_field dt.String field.now) ≡ true }
    ensures { IfOk result (λ _. (value : AnyValue) × (read_field dt.String field.now ≡ Some value)
        × (column.new ≡ column.old ++ value ∷ [])) }
{
    if field.is_empty() {
        return column.push(AnyValue::Null);
    }
    column.push_text(field)
}

/// Adds the value of a field that reads.
pub(crate) fn push_field(
    alloc: Global,
    column: &mut ColumnFill,
    dtype: DataType,
    field: &[u8],
) -> Result<(), AllocError>
    requires { is_some (read_field dtype field.now) ≡ true }
    ensures { IfOk result (λ _. (value : AnyValue) × (read_field dtype field.now ≡ Some value)
        × (column.new ≡ column.old ++ value ∷ [])) }
{
    if dtype == DataType::String {
        return push_text(column, field);
    }
    let value = read_field(alloc, dtype, field)?.unwrap();
    column.push(value)
}

/// Adds the value of the field between two places of a text, which reads.
#[inline(always)]
fn push_field_as(
    alloc: Global,
    column: &mut ColumnFill,
    dtype: DataType,
    text: &[u8],
    low: usize,
    high: usize,
) -> Result<(), AllocError>
    requires order { low ≤ high }
    requires within { high ≤ length text.now }
    requires reads { is_some (read_field dtype (between text.now low high)) ≡ true }
    ensures { IfOk result (λ _. (value : AnyValue)
        × (read_field dtype (between text.now low high) ≡ Some value)
        × (column.new ≡ column.old ++ value ∷ [])) }
{
    match short_number(dtype, text, low, high) {
        Some(number) => column.push(AnyValue::Int(i128::from(number))),
        None => push_field(alloc, column, dtype, &text[low..high]),
    }
}

/// Adds the value of the field between two places of a text, which reads. The types of most fields have
/// code of their own.
#[inline(always)]
pub(crate) fn push_field_at(
    alloc: Global,
    column: &mut ColumnFill,
    dtype: DataType,
    text: &[u8],
    low: usize,
    high: usize,
) -> Result<(), AllocError>
    requires order { low ≤ high }
    requires within { high ≤ length text.now }
    requires reads { is_some (read_field dtype (between text.now low high)) ≡ true }
    ensures { IfOk result (λ _. (value : AnyValue)
        × (read_field dtype (between text.now low high) ≡ Some value)
        × (column.new ≡ column.old ++ value ∷ [])) }
{
    match dtype {
        DataType::Int64 => push_field_as(alloc, column, DataType::Int64, text, low, high),
        DataType::String => push_text(column, &text[low..high]),
        _ => push_field_as(alloc, column, dtype, text, low, high),
    }
}
