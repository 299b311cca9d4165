//! The values that fields read as.

ghost use Rattle.std.specs.Prelude.{◌≡◌, IfOk, is_some};
ghost use Rattle.pipe_csv.specs.Fields.{read_boolean, read_field, read_int, read_text};
ghost use Rattle.pipe_csv.specs.Numbers.{narrowed};

use crate::number::read_int128;
use pipe_columns::{AnyValue, DataType, Text};
use std::alloc::{AllocError, Global};

/// A number as a value of a type, where it is in its range.
fn narrow(dtype: DataType, number: i128) -> Option<AnyValue>
    ensures { result ≡ narrowed dtype number }
{
    let value = AnyValue::Int(number);
    if value.fits(dtype) { Some(value) } else { None }
}

/// The number that a text writes, as a value of a type.
fn read_integer(dtype: DataType, text: &[u8]) -> Option<AnyValue>
    ensures { result ≡ read_int dtype text.now }
{
    match read_int128(text) {
        Some(number) => narrow(dtype, number),
        None => None,
    }
}

/// The truth value that a text writes.
fn read_boolean(text: &[u8]) -> Option<AnyValue>
    ensures { result ≡ read_boolean text.now }
{
    if text == b"true".as_slice() {
        Some(AnyValue::Boolean(true))
    } else if text == b"false".as_slice() {
        Some(AnyValue::Boolean(false))
    } else {
        None
    }
}

/// A copy of the bytes, which is all the memory that it takes.
fn read_text(alloc: Global, text: &[u8]) -> Result<Option<AnyValue>, AllocError>
    ensures { IfOk result (λ o. o ≡ read_text text.now) }
{
    match Text::from_bytes(Vec::from_slice(alloc, text)?) {
        Some(text) => Ok(Some(AnyValue::Text(text))),
        None => Ok(None),
    }
}

/// The value of a field of a type, where it reads: the empty field is null. Only a text takes
/// memory.
pub fn read_field(
    alloc: Global,
    dtype: DataType,
    text: &[u8],
) -> Result<Option<AnyValue>, AllocError>
    ensures { IfOk result (λ o. o ≡ read_field dtype text.now) }
{
    if text.is_empty() {
        return Ok(Some(AnyValue::Null));
    }
    match dtype {
        DataType::Boolean => Ok(read_boolean(text)),
        DataType::String => read_text(alloc, text),
        _ => Ok(read_integer(dtype, text)),
    }
}

/// Whether the bytes are UTF-8.
fn is_text(text: &[u8]) -> bool
    ensures { result ≡ is_some (read_text text.now) }
{
    match str::from_utf8(text) {
        Ok(_) => true,
        Err(_) => false,
    }
}

/// Whether a field reads as a value of a type. It takes no memory.
pub fn does_read(dtype: DataType, text: &[u8]) -> bool
    ensures { result ≡ is_some (read_field dtype text.now) }
{
    if text.is_empty() {
        return true;
    }
    match dtype {
        DataType::Boolean => read_boolean(text).is_some(),
        DataType::String => is_text(text),
        _ => read_integer(dtype, text).is_some(),
    }
}
