//! Why the states of a store were not read.

ghost use Rattle.std.specs.Prelude.{◌≡◌};
ghost use Rattle.pipe_summary.specs.declared.read_error.ReadError.TheVariants as fault;

use std::alloc::{AllocError, AllocFailed};
use thiserror::Error;

/// Why the states of a store were not read.
#[derive(Debug, Drop, PartialEq, Eq, Error)]
pub enum ReadError {
    /// The store failed.
    #[error("store failed")]
    Store,
    /// The frame of a number, counted from 0, is the first that isn't the text of a fair state of
    /// the query, or whose range is empty or doesn't begin where the one before ends, or with which
    /// the rows are 2^32 or more.
    #[error("frame {number}: no state")]
    Damaged { number: u64 },
    /// Memory ran out.
    #[error("out of memory")]
    Memory,
}

/// Why a summary was not opened.
pub type OpenError = ReadError;

/// Why a summary gave no answer.
pub type AnswerError = ReadError;

impl From<AllocError> for ReadError {
    ghost from_gives = { λ _ e. e ≡ fault.Memory };

    fn from(_: AllocError) -> Self {
        ReadError::Memory
    }
}

impl<T: Drop> From<AllocFailed<T>> for ReadError {
    ghost from_gives = { λ _ e. e ≡ fault.Memory };

    fn from(_: AllocFailed<T>) -> Self {
        ReadError::Memory
    }
}
