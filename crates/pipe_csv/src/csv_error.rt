//! Why the text of a file was not read.

ghost use Rattle.std.specs.Prelude.{◌≡◌};
ghost use Rattle.pipe_csv.specs.declared.csv_error.CsvError.TheVariants.{Memory};

use std::alloc::AllocError;
use thiserror::Error;

/// Why the chunks of CSV files were not read. Files, rows and columns are counted from 1, and the
/// header is no row.
#[derive(Debug, Drop, Error)]
pub enum CsvError {
    /// The first record isn't the schema's names, in order.
    #[error("the header of file {file} is not the names of the schema")]
    Header {
        file: usize,
    },
    /// A row has another number of fields than the schema.
    #[error("row {row} of file {file} has another number of fields")]
    Width {
        file: usize,
        row: usize,
    },
    /// A field doesn't read as its column's type.
    #[error("column {column} of row {row} of file {file} does not read")]
    Field {
        file: usize,
        row: usize,
        column: usize,
    },
    /// A file couldn't be read.
    #[error("a file could not be read")]
    Input,
    /// A file is larger than is read at once.
    #[error("a file is too large")]
    TooLarge,
    /// Memory ran out.
    #[error("memory ran out")]
    Memory,
    /// No file has the name.
    #[error("file {file} is missing")]
    Missing {
        file: usize,
    },
}

impl From<AllocError> for CsvError {
    ghost from_gives = { λ _ e. e ≡ Memory };

    fn from(_error: AllocError) -> CsvError {
        CsvError::Memory
    }
}
