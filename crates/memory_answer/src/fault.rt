//! Why a call over texts in memory gives no answer.

ghost use Rattle.std.specs.Prelude.{◌≡◌};
ghost use Rattle.memory_answer.specs.Faults.{read_status, status_of};
ghost use Rattle.memory_answer.specs.Held.{read_fault};

use pipe_csv::CsvError;
use tool_query::NoQuery;
use tool_shell::{INPUT_FAILED, INPUT_REFUSED, NO_MEMORY, QUERY_REFUSED, TOO_LARGE, WORDS_REFUSED};

/// Why a call gives no answer.
#[derive(Debug, Drop)]
pub enum Fault {
    /// The number of a format is that of none.
    Words,
    /// The bytes of the query are none that can be asked.
    Query(NoQuery),
    /// The text isn't read to its end. It is file 1; rows and columns are counted from 1, and the header is
    /// no row.
    Read(CsvError),
    /// Memory ran out.
    Memory,
}

/// The status of a text that is not read to its end.
fn read_status(error: &CsvError) -> u8
    ensures { result ≡ read_status error.now }
{
    match error {
        CsvError::Missing { .. } => INPUT_REFUSED,
        CsvError::Header { .. } => INPUT_REFUSED,
        CsvError::Width { .. } => INPUT_REFUSED,
        CsvError::Field { .. } => INPUT_REFUSED,
        CsvError::Input => INPUT_FAILED,
        CsvError::TooLarge => TOO_LARGE,
        CsvError::Memory => NO_MEMORY,
    }
}

/// The status of a fault.
pub fn status_of(fault: &Fault) -> u8
    ensures { result ≡ status_of fault.now }
{
    match fault {
        Fault::Words => WORDS_REFUSED,
        Fault::Query(_) => QUERY_REFUSED,
        Fault::Read(error) => read_status(error),
        Fault::Memory => NO_MEMORY,
    }
}

/// The fault of a text that is not read to its end.
pub(crate) fn read_fault(error: CsvError) -> Fault
    ensures { result ≡ read_fault error }
{
    match error {
        CsvError::Memory => Fault::Memory,
        CsvError::Missing { file } => Fault::Read(CsvError::Missing { file }),
        CsvError::Header { file } => Fault::Read(CsvError::Header { file }),
        CsvError::Width { file, row } => Fault::Read(CsvError::Width { file, row }),
        CsvError::Field { file, row, column } => {
            Fault::Read(CsvError::Field { file, row, column })
        }
        CsvError::Input => Fault::Read(CsvError::Input),
        CsvError::TooLarge => Fault::Read(CsvError::TooLarge),
    }
}
