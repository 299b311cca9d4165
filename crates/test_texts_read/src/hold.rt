//! What a test ends with.

use std::alloc::AllocError;
use std::test::Fail;

/// Fails a test where what it asks isn't so.
pub(crate) fn hold(answer: Result<bool, AllocError>) -> Result<(), Fail> {
    match answer {
        Ok(true) => Ok(()),
        Ok(false) => Err("it isn't so".into()),
        Err(error) => Err(error.into()),
    }
}
