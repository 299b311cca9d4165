//! The inputs of a row out of bytes.

ghost use Rattle.std.specs.Prelude.{◌≡◌, ◌++◌, ◌↔◌, IfOk, IfNone, IfSome, IsErrOf, IsTrue, OnOk};
ghost use Rattle.pipe_columns.specs.Key.{code};
ghost use Rattle.pipe_spill.specs.KeyTypes.{IsTuple};
ghost use Rattle.pipe_spill.specs.Reading.{BeginsNoTuple};
ghost use Rattle.pipe_spill.specs.SpillRow.{IsKey};
ghost use Rattle.pipe_spill.specs.declared.decode.DecodeError.TheVariants as fault;

use pipe_columns::{AnyValue, DataType};
use pipe_spill::{DecodeError, read_value};
use std::alloc::{AllocError, Global};

/// Reads the tuple that the bytes begin with into a list, in the place of what it held, and gives
/// the bytes after it.
pub(crate) fn read_inputs<'a>(
    alloc: Global,
    bytes: &'a [u8],
    types: &[DataType],
    values: &mut Vec<AnyValue>,
) -> Result<&'a [u8], DecodeError>
    ensures tuple { OnOk result (IsTuple types.now values.new.items) }
    ensures code { IfOk result
        (λ rest. code types.now values.new.items ++ rest.now ≡ bytes.now) }
    ensures not_a_key { IsErrOf result fault.NotAKey → BeginsNoTuple types.now bytes.now }
{
    values.clear();
    let mut rest = bytes;
    for dtype in types {
        let (value, after) = read_value(alloc, rest, *dtype)?;
        values.push(value)?;
        rest = after;
    }
    Ok(rest)
}

/// Whether bytes are the code of a tuple of types. The list is for its values.
pub(crate) fn is_key(
    alloc: Global,
    key: &[u8],
    types: &[DataType],
    values: &mut Vec<AnyValue>,
) -> Result<bool, AllocError>
    ensures { IfOk result (λ yes. IsTrue yes ↔ IsKey types.now key.now) }
{
    match read_inputs(alloc, key, types, values) {
        Ok(rest) => Ok(rest.is_empty()),
        Err(DecodeError::NotAKey) => Ok(false),
        Err(DecodeError::Memory) => Err(AllocError),
    }
}
