//! Why files were not rolled up.

ghost use Rattle.std.specs.Prelude.{◌≡◌};
ghost use Rattle.rollup_roll.specs.declared.roll_error.RollError.TheVariants as fault;

use std::alloc::AllocError;
use thiserror::Error;

/// Why the states of files were not rolled up. Files are counted from 1.
#[derive(Debug, Drop, PartialEq, Eq, Error)]
pub enum RollError {
    /// No file has the name.
    #[error("file {file} is missing")]
    Missing { file: usize },
    /// The input failed.
    #[error("the input failed")]
    Input,
    /// The bytes of a file are the text of no fair state of the query.
    #[error("file {file} is no state of the query")]
    NotAState { file: usize },
    /// The range of a file shares a number with that of one before it.
    #[error("file {file} overlaps")]
    Overlap { file: usize },
    /// A file has more bytes than are read at once, or the states are of 2^32 rows or more.
    #[error("too large")]
    TooLarge,
    /// Memory ran out.
    #[error("out of memory")]
    Memory,
}

impl From<AllocError> for RollError {
    ghost from_gives = { λ _ e. e ≡ fault.Memory };

    fn from(_: AllocError) -> Self {
        RollError::Memory
    }
}
