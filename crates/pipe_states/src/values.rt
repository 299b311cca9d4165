//! Tuples out of the bytes of their codes.

ghost use Rattle.std.specs.Prelude.{◌≡◌, ◌++◌, ◌∷◌, [], IfOk, IsErrOf};
ghost use Rattle.pipe_columns.specs.Key.{code, value_code};
ghost use Rattle.pipe_spill.specs.KeyTypes.{BeginsNoValue, IsCodeOfNone, IsTuple, IsValue};
ghost use Rattle.pipe_spill.specs.Reading.{BeginsNoTuple};
ghost use Rattle.pipe_states.specs.declared.state_error.StateError.TheVariants as fault;

use crate::state_error::{StateError, of_key};
use pipe_columns::{AnyValue, DataType};
use pipe_spill::{Values, read_value};
use std::alloc::Global;

/// The value whose code the bytes begin with, and the bytes after it.
fn read_one(alloc: Global, bytes: &[u8], dtype: DataType) -> Result<(AnyValue, &[u8]), StateError>
    ensures value { IfOk result (λ p. IsValue dtype p.0) }
    ensures code { IfOk result (λ p. value_code dtype p.0 ++ p.1.now ≡ bytes.now) }
    ensures refused { IsErrOf result fault.NotAState → BeginsNoValue dtype bytes.now }
{
    match read_value(alloc, bytes, dtype) {
        Ok(read) => Ok(read),
        Err(error) => Err(of_key(error)),
    }
}

/// The tuple of one value whose code the bytes begin with, and the bytes after it.
fn read_single(alloc: Global, bytes: &[u8], dtype: DataType) -> Result<(Values, &[u8]), StateError>
    ensures tuple { IfOk result (λ p. IsTuple (dtype ∷ []) p.0) }
    ensures code { IfOk result (λ p. code (dtype ∷ []) p.0 ++ p.1.now ≡ bytes.now) }
    ensures refused { IsErrOf result fault.NotAState → BeginsNoTuple (dtype ∷ []) bytes.now }
{
    let (value, rest) = read_one(alloc, bytes, dtype)?;
    Ok((Values::one(value), rest))
}

/// The tuple of two values whose code the bytes begin with, and the bytes after it.
fn read_pair(
    alloc: Global,
    bytes: &[u8],
    first: DataType,
    second: DataType,
) -> Result<(Values, &[u8]), StateError>
    ensures tuple { IfOk result (λ p. IsTuple (first ∷ second ∷ []) p.0) }
    ensures code { IfOk result (λ p. code (first ∷ second ∷ []) p.0 ++ p.1.now ≡ bytes.now) }
    ensures refused { IsErrOf result fault.NotAState
        → BeginsNoTuple (first ∷ second ∷ []) bytes.now }
{
    let (value, rest) = read_one(alloc, bytes, first)?;
    let (other, after) = read_one(alloc, rest, second)?;
    Ok((Values::pair(value, other), after))
}

/// The tuple whose code the bytes begin with, and the bytes after it.
fn read_many<'a>(
    alloc: Global,
    bytes: &'a [u8],
    types: &[DataType],
) -> Result<(Values, &'a [u8]), StateError>
    ensures tuple { IfOk result (λ p. IsTuple types.now p.0) }
    ensures code { IfOk result (λ p. code types.now p.0 ++ p.1.now ≡ bytes.now) }
    ensures refused { IsErrOf result fault.NotAState → BeginsNoTuple types.now bytes.now }
{
    let mut values = Vec::with_capacity(alloc, types.len())?;
    let mut rest = bytes;
    for dtype in types {
        let (value, after) = read_one(alloc, rest, *dtype)?;
        values.push(value)?;
        rest = after;
    }
    Ok((Values::new(values), rest))
}

/// The tuple whose code the bytes begin with, and the bytes after it. One of two values or fewer
/// takes no memory but for its texts.
pub(crate) fn read_values<'a>(
    alloc: Global,
    bytes: &'a [u8],
    types: &[DataType],
) -> Result<(Values, &'a [u8]), StateError>
    ensures tuple { IfOk result (λ p. IsTuple types.now p.0) }
    ensures code { IfOk result (λ p. code types.now p.0 ++ p.1.now ≡ bytes.now) }
    ensures refused { IsErrOf result fault.NotAState → BeginsNoTuple types.now bytes.now }
{
    match types {
        [only] => read_single(alloc, bytes, *only),
        [first, second] => read_pair(alloc, bytes, *first, *second),
        _ => read_many(alloc, bytes, types),
    }
}

/// The tuple whose code the bytes are.
pub(crate) fn read_key(
    alloc: Global,
    bytes: &[u8],
    types: &[DataType],
) -> Result<Values, StateError>
    ensures tuple { IfOk result (λ values. IsTuple types.now values) }
    ensures code { IfOk result (λ values. code types.now values ≡ bytes.now) }
    ensures refused { IsErrOf result fault.NotAState → IsCodeOfNone types.now bytes.now }
{
    let (values, rest) = read_values(alloc, bytes, types)?;
    if rest.is_empty() {
        Ok(values)
    } else {
        Err(StateError::NotAState)
    }
}
