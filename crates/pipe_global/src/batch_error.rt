//! Why a closed partition gave nothing.

ghost use Rattle.std.specs.Prelude.{◌≡◌};
ghost use Rattle.pipe_global.specs.declared.batch_error.BatchError.TheVariants as batch_error;

use std::alloc::AllocError;
use thiserror::Error;

/// Why a closed partition gave nothing. What it then holds, and what the local table holds, is not
/// lost, and it can be asked again.
#[derive(Debug, Drop, PartialEq, Eq, Error)]
pub enum BatchError {
    /// The partition's store failed.
    #[error("store {partition} failed")]
    Store { partition: usize },
    /// What the partition's store gave under a number is not the frame that was put.
    #[error("store {partition} frame {number} damaged")]
    Damaged { partition: usize, number: u64 },
    /// Memory ran out.
    #[error("out of memory")]
    Memory,
}

impl From<AllocError> for BatchError {
    ghost from_gives = { λ _ e. e ≡ batch_error.Memory };

    fn from(_: AllocError) -> Self {
        BatchError::Memory
    }
}
