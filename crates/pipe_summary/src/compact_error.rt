//! Why a summary was not put as one frame.

ghost use Rattle.std.specs.Prelude.{◌≡◌, ◌≢◌, ℕ};
ghost use Rattle.pipe_summary.specs.declared.compact_error.CompactError.TheVariants as fault;
ghost use Rattle.pipe_summary.specs.declared.read_error.ReadError.TheVariants as read_error;

use crate::read_error::ReadError;
use thiserror::Error;

/// Why a summary was not put as one frame.
#[derive(Debug, Drop, PartialEq, Eq, Error)]
pub enum CompactError {
    /// The summary's store failed.
    #[error("store failed")]
    Store,
    /// The summary's store gave other bytes than were put into the frame of a number.
    #[error("frame {number}: no state")]
    Damaged { number: u64 },
    /// Memory ran out.
    #[error("out of memory")]
    Memory,
    /// The store that the frame was to be put into failed.
    #[error("other store failed")]
    Into,
}

/// What a fault of reading is to a compaction.
pub(crate) fn of_read(error: ReadError) -> CompactError
    ensures store { result ≡ fault.Store → error ≡ read_error.Store }
    ensures failed { error ≡ read_error.Store → result ≡ fault.Store }
    ensures damaged { (n : ℕ) → result ≡ fault.Damaged n → error ≡ read_error.Damaged n }
    ensures into { result ≢ fault.Into }
{
    match error {
        ReadError::Store => CompactError::Store,
        ReadError::Damaged { number } => CompactError::Damaged { number },
        ReadError::Memory => CompactError::Memory,
    }
}
