//! Why bytes were not read as a state.

ghost use Rattle.std.specs.Prelude.{◌≡◌};
ghost use Rattle.pipe_states.specs.declared.state_error.StateError.TheVariants as fault;

use pipe_spill::DecodeError;
use std::alloc::{AllocError, AllocFailed};
use thiserror::Error;

/// Why bytes were not read as a state of a query.
#[derive(Debug, Drop, PartialEq, Eq, Error)]
pub enum StateError {
    /// They are the text of no fair state of the query.
    #[error("no state of the query")]
    NotAState,
    /// Memory ran out.
    #[error("out of memory")]
    Memory,
}

impl From<AllocError> for StateError {
    ghost from_gives = { λ _ e. e ≡ fault.Memory };

    fn from(_: AllocError) -> Self {
        StateError::Memory
    }
}

impl<T: Drop> From<AllocFailed<T>> for StateError {
    ghost from_gives = { λ _ e. e ≡ fault.Memory };

    fn from(_: AllocFailed<T>) -> Self {
        StateError::Memory
    }
}

/// What a fault of a key is to a state.
pub(crate) fn of_key(error: DecodeError) -> StateError
    ensures { result ≡ fault.NotAState → error ≡ DecodeError.NotAKey }
{
    match error {
        DecodeError::NotAKey => StateError::NotAState,
        DecodeError::Memory => StateError::Memory,
    }
}
