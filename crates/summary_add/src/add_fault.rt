//! Why files were not added.

ghost use Rattle.std.specs.Prelude.{◌≡◌};
ghost use Rattle.pipe_csv.specs.declared.csv_error.CsvError.TheVariants as csv_error;
ghost use Rattle.pipe_spill.specs.declared.store.StoreError.TheVariants as store_error;
ghost use Rattle.summary_add.specs.declared.add_fault.AddFault.TheVariants as fault;

use pipe_csv::CsvError;
use pipe_spill::StoreError;

/// Why files were not added.
#[derive(Debug, Drop)]
pub enum AddFault {
    /// They don't fit, come to too many rows or chunks with those held, or weren't read; or memory ran
    /// out.
    Read(CsvError),
    /// The store failed.
    Store,
}

/// What a fault of a store is to an addition that is finished.
pub(crate) fn finish_fault(error: StoreError) -> AddFault
    ensures failed { error ≡ store_error.Failed → result ≡ fault.Store }
    ensures store { result ≡ fault.Store → error ≡ store_error.Failed }
    ensures memory { error ≡ store_error.Memory → result ≡ fault.Read csv_error.Memory }
{
    match error {
        StoreError::Failed => AddFault::Store,
        StoreError::Memory => AddFault::Read(CsvError::Memory),
    }
}
