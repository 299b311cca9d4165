//! Values out of the bytes of their codes.

ghost use Rattle.std.specs.Prelude.{◌≡◌, ◌≢◌, ◌++◌, ◌∷◌, Bool, false, IfOk, IfSome, IsErrOf, IsNone, List, ℕ, if◌then◌else◌};
ghost use Rattle.pipe_columns.specs.DataType.{is_string};
ghost use Rattle.pipe_columns.specs.Key.{code, value_code};
ghost use Rattle.pipe_columns.specs.declared.data_type.DataType.TheVariants as dt;
ghost use Rattle.pipe_spill.specs.declared.decode.DecodeError.TheVariants as fault;
ghost use Rattle.pipe_spill.specs.KeyTypes.{BeginsNoValue, IsCodeOfNone, IsTuple, IsValue};
ghost use Rattle.pipe_spill.specs.Reading.{BeginsNoTuple};

use crate::Values;
use crate::read_number::read_number;
use crate::read_text::read_text;
use pipe_columns::{AnyValue, DataType};
use std::alloc::{AllocError, AllocFailed, Global};

/// Why bytes were not read back.
#[derive(Debug, Drop, PartialEq, Eq)]
pub enum DecodeError {
    /// They are no code of the types.
    NotAKey,
    Memory,
}

impl From<AllocError> for DecodeError {
    ghost from_gives = { λ _ e. e ≡ fault.Memory };

    fn from(_: AllocError) -> Self {
        DecodeError::Memory
    }
}

impl<T: Drop> From<AllocFailed<T>> for DecodeError {
    ghost from_gives = { λ _ e. e ≡ fault.Memory };

    fn from(_: AllocFailed<T>) -> Self {
        DecodeError::Memory
    }
}

/// The truth value whose byte stands in front, and the bytes after it.
pub(crate) fn read_truth(body: &[u8]) -> Option<(bool, &[u8])>
    ensures code { IfSome result (λ p. (if p.0 then 1 else 0) ∷ p.1.now ≡ body.now) }
    ensures none { IsNone result
        → (truth : Bool) (rest : List ℕ) → (if truth then 1 else 0) ∷ rest ≢ body.now }
{
    match body.split_first() {
        Some((0, rest)) => Some((false, rest)),
        Some((1, rest)) => Some((true, rest)),
        _ => None,
    }
}

/// The value of a type that isn't a text whose code, after the mark of a value that isn't null,
/// stands in front.
fn read_plain_body(body: &[u8], dtype: DataType) -> Option<(AnyValue, &[u8])>
    requires { is_string dtype ≡ false }
    ensures value { IfSome result (λ p. IsValue dtype p.0) }
    ensures code { IfSome result (λ p. value_code dtype p.0 ++ p.1.now ≡ 1 ∷ body.now) }
    ensures none { IsNone result → BeginsNoValue dtype (1 ∷ body.now) }
{
    match dtype {
        DataType::Boolean => {
            let (truth, rest) = read_truth(body)?;
            Some((AnyValue::Boolean(truth), rest))
        }
        _ => {
            let (number, rest) = read_number(body, dtype)?;
            Some((AnyValue::Int(number), rest))
        }
    }
}

/// The value of a type that isn't a text whose code the bytes begin with, and the bytes after it.
/// It takes no memory.
pub fn read_plain(bytes: &[u8], dtype: DataType) -> Option<(AnyValue, &[u8])>
    requires { is_string dtype ≡ false }
    ensures value { IfSome result (λ p. IsValue dtype p.0) }
    ensures code { IfSome result (λ p. value_code dtype p.0 ++ p.1.now ≡ bytes.now) }
    ensures none { IsNone result → BeginsNoValue dtype bytes.now }
{
    match bytes.split_first() {
        Some((0, rest)) => Some((AnyValue::Null, rest)),
        Some((1, body)) => read_plain_body(body, dtype),
        _ => None,
    }
}

/// The text or the null whose code the bytes begin with, and the bytes after it.
fn read_text_value(alloc: Global, bytes: &[u8]) -> Result<(AnyValue, &[u8]), DecodeError>
    ensures value { IfOk result (λ p. IsValue dt.String p.0) }
    ensures code { IfOk result (λ p. value_code dt.String p.0 ++ p.1.now ≡ bytes.now) }
    ensures not_a_key { IsErrOf result fault.NotAKey → BeginsNoValue dt.String bytes.now }
{
    match bytes.split_first() {
        Some((0, rest)) => Ok((AnyValue::Null, rest)),
        Some((1, body)) => {
            let (text, rest) = read_text(alloc, body)?;
            Ok((AnyValue::Text(text), rest))
        }
        _ => Err(DecodeError::NotAKey),
    }
}

/// The value whose code the bytes begin with, and the bytes after it.
pub fn read_value(
    alloc: Global,
    bytes: &[u8],
    dtype: DataType,
) -> Result<(AnyValue, &[u8]), DecodeError>
    ensures value { IfOk result (λ p. IsValue dtype p.0) }
    ensures code { IfOk result (λ p. value_code dtype p.0 ++ p.1.now ≡ bytes.now) }
    ensures not_a_key { IsErrOf result fault.NotAKey → BeginsNoValue dtype bytes.now }
{
    match dtype {
        DataType::String => read_text_value(alloc, bytes),
        _ => match read_plain(bytes, dtype) {
            Some(read) => Ok(read),
            None => Err(DecodeError::NotAKey),
        },
    }
}

/// The tuple whose code the bytes begin with, and the bytes after it.
pub(crate) fn read_values<'a>(
    alloc: Global,
    bytes: &'a [u8],
    types: &[DataType],
) -> Result<(Values, &'a [u8]), DecodeError>
    ensures tuple { IfOk result (λ p. IsTuple types.now p.0) }
    ensures code { IfOk result (λ p. code types.now p.0 ++ p.1.now ≡ bytes.now) }
    ensures not_a_key { IsErrOf result fault.NotAKey → BeginsNoTuple types.now bytes.now }
{
    let mut values = Vec::with_capacity(alloc, types.len())?;
    let mut rest = bytes;
    for dtype in types {
        let (value, after) = read_value(alloc, rest, *dtype)?;
        values.push(value)?;
        rest = after;
    }
    Ok((Values::new(values), rest))
}

/// The tuple whose code the bytes are.
pub fn decode_key(alloc: Global, bytes: &[u8], types: &[DataType]) -> Result<Values, DecodeError>
    ensures tuple { IfOk result (λ values. IsTuple types.now values) }
    ensures code { IfOk result (λ values. code types.now values ≡ bytes.now) }
    ensures not_a_key { IsErrOf result fault.NotAKey → IsCodeOfNone types.now bytes.now }
{
    let (values, rest) = read_values(alloc, bytes, types)?;
    if rest.is_empty() {
        Ok(values)
    } else {
        Err(DecodeError::NotAKey)
    }
}
