//! What a fault of a file is to a store.

use pipe_spill::StoreError;
use std::io::{self, ErrorKind};

/// Memory ran out, or the store failed.
pub(crate) fn store_error(error: io::Error) -> StoreError {
    if error.kind() == ErrorKind::OutOfMemory {
        StoreError::Memory
    } else {
        StoreError::Failed
    }
}
