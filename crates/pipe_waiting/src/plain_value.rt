//! A value that is no text, out of the bytes of its code, which are known to be there.

ghost use Rattle.std.specs.Prelude.{◌≡◌, ◌<◌, ◌≤◌, ◌^◌, drop, false, length, take};
ghost use Rattle.pipe_columns.specs.DataType.{is_boolean, is_string};
ghost use Rattle.pipe_waiting.specs.PlainValues.{body_size, code_size, read_number};
ghost use Rattle.pipe_waiting.specs.ReadRows.{number_of, read_value};

use crate::row_head::{take_u32, take_u64};
use pipe_columns::{AnyValue, DataType};

/// How many bytes a value of the type has in its code behind the mark.
#[inline(always)]
fn body_size(dtype: DataType) -> usize
    ensures { result ≡ body_size dtype }
{
    match dtype {
        DataType::String => 0,
        DataType::Boolean | DataType::Int8 | DataType::UInt8 => 1,
        DataType::Int16 | DataType::UInt16 => 2,
        DataType::Int32 | DataType::UInt32 | DataType::Date => 4,
        DataType::Int64 | DataType::UInt64 => 8,
        DataType::Int128 => 16,
    }
}

/// How many bytes the value takes that the bytes begin with. It reads the mark alone.
#[inline(always)]
fn code_size(bytes: &[u8], dtype: DataType) -> usize
    requires { 0 < length bytes.now }
    ensures { result ≡ code_size dtype bytes.now }
{
    if bytes[0] == 0 {
        1
    } else {
        1 + body_size(dtype)
    }
}

/// The bytes after the value that the bytes begin with.
#[inline(always)]
pub(crate) fn behind_value(bytes: &[u8], dtype: DataType) -> &[u8]
    requires some { 0 < length bytes.now }
    requires room { code_size dtype bytes.now ≤ length bytes.now }
    ensures { result.now ≡ drop (code_size dtype bytes.now) bytes.now }
{
    &bytes[code_size(bytes, dtype)..]
}

/// The number that the first four bytes are.
#[inline(always)]
fn four(body: &[u8]) -> u128
    requires { 4 ≤ length body.now }
    ensures number { result ≡ number_of (take 4 body.now) }
    ensures range { result < 2 ^ 32 }
{
    let Some((number, _rest)) = take_u32(body) else {
        unreachable!();
    };
    number as u128
}

/// The number that the first eight bytes are.
#[inline(always)]
fn eight(body: &[u8]) -> u128
    requires { 8 ≤ length body.now }
    ensures number { result ≡ number_of (take 8 body.now) }
    ensures range { result < 2 ^ 64 }
{
    let Some((number, _rest)) = take_u64(body) else {
        unreachable!();
    };
    number as u128
}

/// The number that the first bytes are, few as they are.
#[inline(always)]
fn first(body: &[u8], width: usize) -> u128
    requires few { width ≤ 16 }
    requires room { width ≤ length body.now }
    ensures number { result ≡ number_of (take width body.now) }
    ensures range { result < 256 ^ width }
{
    let mut number: u128 = 0;
    for i in 0..width {
        number = number * 256 + body[i] as u128;
    }
    number
}

/// The number of a type whose bytes stand in front.
#[inline(always)]
fn read_number(body: &[u8], dtype: DataType) -> i128
    requires truth { is_boolean dtype ≡ false }
    requires plain { is_string dtype ≡ false }
    requires room { body_size dtype ≤ length body.now }
    ensures { result ≡ read_number dtype body.now }
{
    match dtype {
        DataType::Int8 => first(body, 1) as i128 - (1 << 7),
        DataType::Int16 => first(body, 2) as i128 - (1 << 15),
        DataType::Int32 | DataType::Date => four(body) as i128 - (1 << 31),
        DataType::Int64 => eight(body) as i128 - (1 << 63),
        DataType::UInt8 => first(body, 1) as i128,
        DataType::UInt16 => first(body, 2) as i128,
        DataType::UInt32 => four(body) as i128,
        DataType::UInt64 => eight(body) as i128,
        DataType::Int128 => {
            let counted = first(body, 16);
            if counted < 1 << 127 {
                counted as i128 + i128::MIN
            } else {
                (counted - (1 << 127)) as i128
            }
        }
        DataType::Boolean | DataType::String => unreachable!(),
    }
}

/// The value that the bytes begin with.
#[inline(always)]
pub(crate) fn plain_value(bytes: &[u8], dtype: DataType) -> AnyValue
    requires plain { is_string dtype ≡ false }
    requires some { 0 < length bytes.now }
    requires room { code_size dtype bytes.now ≤ length bytes.now }
    ensures { result ≡ (read_value dtype bytes.now).0 }
{
    if bytes[0] == 0 {
        return AnyValue::Null;
    }
    let body = &bytes[1..];
    match dtype {
        DataType::Boolean => AnyValue::Boolean(body[0] == 1),
        _ => AnyValue::Int(read_number(body, dtype)),
    }
}
