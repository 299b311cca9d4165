//! Why states were not merged.

ghost use Rattle.std.specs.Prelude.{◌≡◌};
ghost use Rattle.pipe_regroup.specs.declared.merge_error.MergeError.TheVariants as fault;

use std::alloc::{AllocError, AllocFailed};
use thiserror::Error;

/// Why states were not merged.
#[derive(Debug, Drop, PartialEq, Eq, Error)]
pub enum MergeError {
    /// The states are of 2^32 rows or more.
    #[error("too many rows")]
    TooLarge,
    /// Memory ran out.
    #[error("out of memory")]
    Memory,
}

impl From<AllocError> for MergeError {
    ghost from_gives = { λ _ e. e ≡ fault.Memory };

    fn from(_: AllocError) -> Self {
        MergeError::Memory
    }
}

impl<T: Drop> From<AllocFailed<T>> for MergeError {
    ghost from_gives = { λ _ e. e ≡ fault.Memory };

    fn from(_: AllocFailed<T>) -> Self {
        MergeError::Memory
    }
}
