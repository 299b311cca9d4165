//! Values as the bytes of their codes.

ghost use Rattle.std.specs.Prelude.{◌≡◌, ◌==◌, false, ◌++◌, ◌∷◌, ◌+ℤ◌, ◌^◌, pos, [], IfOk, OnErr, OnOk, length, take, true};
ghost use Rattle.std.specs.Int.{bytes_high_first};
ghost use Rattle.std.specs.List.{list_any};
ghost use Rattle.pipe_columns.specs.AnyValue.{fits, fits_number};
ghost use Rattle.pipe_columns.specs.Key.{code, number_code, text_code, value_code};
ghost use Rattle.pipe_spill.specs.KeyTypes.{AreOfTypes, IsTuple, IsValue};
ghost use Rattle.pipe_spill.specs.SpillRow.{IsKey};

use crate::KeyBytes;
use pipe_columns::{AnyValue, DataType};
use std::alloc::{AllocError, Global};

/// Appends the mark of a value that isn't null, and the bytes of a number.
fn append_marked<const N: usize>(buffer: &mut Vec<u8>, bytes: [u8; N]) -> Result<(), AllocError>
    ensures ok { OnOk result (buffer.new.items ≡ buffer.old.items ++ 1 ∷ bytes.entry) }
    ensures refused { OnErr result (buffer.new.items ≡ buffer.old.items) }
{
    let start = buffer.len();
    buffer.push(1)?;
    let appended = buffer.extend_from_slice(&bytes);
    if appended.is_err() {
        buffer.truncate(start);
    }
    appended
}

/// Appends the mark of a value that isn't null, and the bytes of a number of 64 bits, all at once.
#[inline(always)]
fn append_long(buffer: &mut Vec<u8>, number: u64) -> Result<(), AllocError>
    ensures ok { OnOk result (buffer.new.items
        ≡ buffer.old.items ++ 1 ∷ bytes_high_first 8 number) }
    ensures refused { OnErr result (buffer.new.items ≡ buffer.old.items) }
{
    let mut code = [1; 9];
    code[1..].copy_from_slice(&number.to_be_bytes());
    buffer.extend_from_slice(&code)
}

/// A number of 128 bits, counted from the least one.
fn from_the_least(number: i128) -> u128
    ensures { pos result ≡ number +ℤ pos (2 ^ 127) }
{
    number.abs_diff(i128::MIN)
}

/// Appends the code of a number. A signed one is counted from the least of its type.
fn append_number(buffer: &mut Vec<u8>, number: i128, dtype: DataType) -> Result<(), AllocError>
    requires { fits_number number dtype ≡ true }
    ensures ok { OnOk result (buffer.new.items ≡ buffer.old.items ++ 1 ∷ number_code dtype number) }
    ensures refused { OnErr result (buffer.new.items ≡ buffer.old.items) }
{
    match dtype {
        DataType::Int8 => append_marked(buffer, ((number + (1 << 7)) as u8).to_be_bytes()),
        DataType::Int16 => append_marked(buffer, ((number + (1 << 15)) as u16).to_be_bytes()),
        DataType::Int32 | DataType::Date => {
            append_marked(buffer, ((number + (1 << 31)) as u32).to_be_bytes())
        }
        DataType::Int64 => append_long(buffer, (number + (1 << 63)) as u64),
        DataType::Int128 => append_marked(buffer, from_the_least(number).to_be_bytes()),
        DataType::UInt8 => append_marked(buffer, (number as u8).to_be_bytes()),
        DataType::UInt16 => append_marked(buffer, (number as u16).to_be_bytes()),
        DataType::UInt32 => append_marked(buffer, (number as u32).to_be_bytes()),
        DataType::UInt64 => append_long(buffer, number as u64),
        DataType::Boolean | DataType::String => unreachable!(),
    }
}

/// Appends the body of a text: each zero byte is followed by 1, and the end is two zero bytes. A
/// refusal leaves a part of it.
fn append_escaped(buffer: &mut Vec<u8>, text: &[u8]) -> Result<(), AllocError>
    ensures ok { OnOk result (buffer.new.items ≡ buffer.old.items ++ text_code text.now) }
    ensures refused { take (length buffer.old.items) buffer.new.items ≡ buffer.old.items }
{
    for byte in text {
        buffer.push(*byte)?;
        if *byte == 0 {
            buffer.push(1)?;
        }
    }
    buffer.extend_from_slice(&[0, 0])
}

/// Appends the body of a text without a zero byte, which is copied whole. A refusal leaves a part.
fn append_plain(buffer: &mut Vec<u8>, text: &[u8]) -> Result<(), AllocError>
    requires { list_any (λ byte. byte == 0) text.now ≡ false }
    ensures ok { OnOk result (buffer.new.items ≡ buffer.old.items ++ text_code text.now) }
    ensures refused { take (length buffer.old.items) buffer.new.items ≡ buffer.old.items }
{
    buffer.extend_from_slice(text)?;
    buffer.extend_from_slice(&[0, 0])
}

/// Appends the code of a text.
fn append_text(buffer: &mut Vec<u8>, text: &[u8]) -> Result<(), AllocError>
    ensures ok { OnOk result (buffer.new.items ≡ buffer.old.items ++ 1 ∷ text_code text.now) }
    ensures refused { OnErr result (buffer.new.items ≡ buffer.old.items) }
{
    let start = buffer.len();
    buffer.push(1)?;
    let appended = if text.contains(&0) {
        append_escaped(buffer, text)
    } else {
        append_plain(buffer, text)
    };
    if appended.is_err() {
        buffer.truncate(start);
    }
    appended
}

/// Appends the code of one value of any type.
#[inline(never)]
fn append_any(buffer: &mut Vec<u8>, value: &AnyValue, dtype: DataType) -> Result<(), AllocError>
    requires { fits value.now dtype ≡ true }
    ensures value { IsValue dtype value.now }
    ensures ok { OnOk result (buffer.new.items ≡ buffer.old.items ++ value_code dtype value.now) }
    ensures refused { OnErr result (buffer.new.items ≡ buffer.old.items) }
{
    match value {
        AnyValue::Null => buffer.extend_from_slice(&[0]),
        AnyValue::Boolean(truth) => buffer.extend_from_slice(&[1, *truth as u8]),
        AnyValue::Int(number) => append_number(buffer, *number, dtype),
        AnyValue::Text(text) => append_text(buffer, text.as_bytes()),
    }
}

/// Appends the code of one value. It takes no memory where the buffer has room.
#[inline(always)]
pub fn append_value(
    buffer: &mut Vec<u8>,
    value: &AnyValue,
    dtype: DataType,
) -> Result<(), AllocError>
    requires { fits value.now dtype ≡ true }
    ensures value { IsValue dtype value.now }
    ensures ok { OnOk result (buffer.new.items ≡ buffer.old.items ++ value_code dtype value.now) }
    ensures refused { OnErr result (buffer.new.items ≡ buffer.old.items) }
{
    match (value, dtype) {
        (AnyValue::Int(number), DataType::Int64) => {
            append_long(buffer, (*number + (1 << 63)) as u64)
        }
        _ => append_any(buffer, value, dtype),
    }
}

/// Appends the code of a tuple. A refusal leaves a part of it.
pub(crate) fn append_values(
    buffer: &mut Vec<u8>,
    values: &[AnyValue],
    types: &[DataType],
) -> Result<(), AllocError>
    requires { AreOfTypes types.now values.now }
    ensures tuple { OnOk result (IsTuple types.now values.now) }
    ensures ok { OnOk result (buffer.new.items ≡ buffer.old.items ++ code types.now values.now) }
{
    for (i, dtype) in types.iter().enumerate() {
        append_value(buffer, &values[i], *dtype)?;
    }
    Ok(())
}

/// Writes the code of a tuple into a buffer, in the place of what it held. It takes no memory where
/// the buffer has room.
pub fn encode_key_into(
    key: &mut Vec<u8>,
    values: &[AnyValue],
    types: &[DataType],
) -> Result<(), AllocError>
    requires { AreOfTypes types.now values.now }
    ensures ok { OnOk result (key.new.items ≡ code types.now values.now) }
    ensures key { OnOk result (IsKey types.now key.new.items) }
    ensures refused { OnErr result (key.new.items ≡ []) }
{
    key.clear();
    let appended = append_values(key, values, types);
    if appended.is_err() {
        key.clear();
    }
    appended
}

/// The code of a tuple.
pub fn encode_key(
    alloc: Global,
    values: &[AnyValue],
    types: &[DataType],
) -> Result<KeyBytes, AllocError>
    requires { AreOfTypes types.now values.now }
    ensures code { IfOk result (λ key. key ≡ code types.now values.now) }
    ensures key { IfOk result (λ key. IsKey types.now key) }
{
    let mut key = Vec::new(alloc);
    encode_key_into(&mut key, values, types)?;
    Ok(KeyBytes::new(key))
}
