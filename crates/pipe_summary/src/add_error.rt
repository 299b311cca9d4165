//! Why chunks were not added.

ghost use Rattle.std.specs.Prelude.{◌≡◌};
ghost use Rattle.pipe_spill.specs.declared.store.StoreError.TheVariants as store_error;
ghost use Rattle.pipe_summary.specs.declared.add_error.AddError.TheVariants as fault;

use pipe_spill::StoreError;
use thiserror::Error;

/// Why chunks were not added.
#[derive(Debug, Drop, PartialEq, Eq, Error)]
pub enum AddError {
    /// The chunk at a position is the first that doesn't fit the query.
    #[error("chunk {chunk} does not fit")]
    Schema { chunk: usize },
    /// With those that are held there are 2^32 rows or more, or chunks past the last position.
    #[error("too large")]
    TooLarge,
    /// The store failed.
    #[error("store failed")]
    Store,
    /// Memory ran out.
    #[error("out of memory")]
    Memory,
}

/// What a fault of a store is to an addition.
pub(crate) fn of_put(error: StoreError) -> AddError
    ensures store { result ≡ fault.Store → error ≡ store_error.Failed }
    ensures failed { error ≡ store_error.Failed → result ≡ fault.Store }
    ensures memory { error ≡ store_error.Memory → result ≡ fault.Memory }
{
    match error {
        StoreError::Failed => AddError::Store,
        StoreError::Memory => AddError::Memory,
    }
}
