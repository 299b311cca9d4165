//! Why a writer refuses, and how bytes are sent.

ghost use Rattle.std.specs.Prelude.{◌≡◌, is_some, IsErrOf, OnErr, OnOk};
ghost use Rattle.std.specs.Io.KnownBytes.{Appends};
ghost use Rattle.pipe_columns.specs.Causes.{HasCause};
ghost use Rattle.pipe_io.specs.Output.{WroteFront};
ghost use Rattle.pipe_writers.specs.declared.write_error.WriteError.TheVariants as write_error;

use pipe_io::{Output, OutputError, write_all};
use std::alloc::{AllocError, AllocFailed};
use thiserror::Error;

/// Why a writer refuses.
#[derive(Debug, Drop, PartialEq, Eq, Error)]
pub enum WriteError {
    /// The output failed.
    #[error("output failed")]
    Output,
    /// Memory ran out.
    #[error("out of memory")]
    Memory,
}

impl From<AllocError> for WriteError {
    ghost from_gives = { λ _ e. e ≡ write_error.Memory };

    fn from(_: AllocError) -> Self {
        WriteError::Memory
    }
}

impl<T: Drop> From<AllocFailed<T>> for WriteError {
    ghost from_gives = { λ _ e. e ≡ write_error.Memory };

    fn from(_: AllocFailed<T>) -> Self {
        WriteError::Memory
    }
}

/// Sends all the bytes, or where the output refuses a front of them.
pub(crate) fn send<O: Output>(output: &mut O, bytes: &[u8]) -> Result<(), WriteError>
    ensures all { OnOk result (Appends (O.told output.old) (O.told output.new) bytes.now) }
    ensures tells { is_some (O.told output.new) ≡ is_some (O.told output.old) }
    ensures front { OnErr result (WroteFront (O.told output.old) (O.told output.new) bytes.now) }
    ensures cause { HasCause (O.faults output.old) (O.faults output.new)
        (IsErrOf result write_error.Output) }
{
    match write_all(output, bytes) {
        Ok(()) => Ok(()),
        Err(OutputError::Failed) => Err(WriteError::Output),
        Err(OutputError::Memory) => Err(WriteError::Memory),
    }
}
