//! Why states were not regrouped.

ghost use Rattle.std.specs.Prelude.{◌≡◌};
ghost use Rattle.pipe_regroup.specs.declared.regroup_error.RegroupError.TheVariants as fault;

use std::alloc::AllocError;
use thiserror::Error;

/// Why states were not regrouped.
#[derive(Debug, Drop, PartialEq, Eq, Error)]
pub enum RegroupError {
    /// The range of the state at a position, counted from 0, shares a number with that of an
    /// earlier one; it is the first such.
    #[error("state {file} overlaps an earlier one")]
    Overlap { file: usize },
    /// The states are of 2^32 rows or more.
    #[error("too many rows")]
    TooLarge,
    /// Memory ran out.
    #[error("out of memory")]
    Memory,
}

impl From<AllocError> for RegroupError {
    ghost from_gives = { λ _ e. e ≡ fault.Memory };

    fn from(_: AllocError) -> Self {
        RegroupError::Memory
    }
}
