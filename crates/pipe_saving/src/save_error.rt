//! Why chunks were not saved.

ghost use Rattle.std.specs.Prelude.{◌≡◌};
ghost use Rattle.pipe_saving.specs.declared.save_error.SaveError.TheVariants as fault;

use std::alloc::AllocError;
use thiserror::Error;

/// Why chunks were not saved.
#[derive(Debug, Drop, PartialEq, Eq, Error)]
pub enum SaveError {
    /// The chunk at a position is the first that doesn't fit the query.
    #[error("chunk {chunk} does not fit")]
    Schema { chunk: usize },
    /// There are 2^32 rows or more, or chunks past the last position.
    #[error("too large")]
    TooLarge,
    /// Memory ran out.
    #[error("out of memory")]
    Memory,
}

impl From<AllocError> for SaveError {
    ghost from_gives = { λ _ e. e ≡ fault.Memory };

    fn from(_: AllocError) -> Self {
        SaveError::Memory
    }
}
