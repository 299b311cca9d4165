//! The faults of a run.

ghost use Rattle.std.specs.Prelude.{◌≡◌};
ghost use Rattle.tool_answer.specs.Faults.{refusal_status, status_of};
ghost use Rattle.tool_answer.specs.Inside.{ask_fault, CanCome, file_fault, read_fault, run_fault};

use pipe_csv::CsvError;
use pipe_run::PipeError;
use tool_run::FileRunError;
use tool_shell::{
    DAMAGED, INPUT_FAILED, INPUT_REFUSED, NO_MEMORY, OUTPUT_FAILED, QUERY_REFUSED, STORE_FAILED,
    TOO_LARGE, WORDS_REFUSED,
};
use tool_words::{AskError, Refusal};

/// Why a run ended without its answer. Files, rows and columns are counted from 1, and the header is
/// no row.
#[derive(Debug, Drop, PartialEq, Eq)]
pub enum ToolFault {
    /// The words are refused.
    Refused(Refusal),
    /// No file has the name.
    Missing {
        file: usize,
    },
    /// The first record isn't the schema's names, in order.
    Header {
        file: usize,
    },
    /// A row has another number of fields than the schema.
    Width {
        file: usize,
        row: usize,
    },
    /// A field doesn't read as its column's type.
    Field {
        file: usize,
        row: usize,
        column: usize,
    },
    /// A read failed.
    InputFailed,
    /// A write failed.
    OutputFailed,
    /// A file has more bytes than are read, or there are too many rows or chunks.
    TooLarge,
    /// The store of a partition failed.
    Store {
        partition: usize,
    },
    /// The store of a partition gave another frame under a number than was put.
    Damaged {
        partition: usize,
        number: u64,
    },
    /// Memory ran out.
    Memory,
}

/// The exit status of words that are refused.
fn refusal_status(refusal: Refusal) -> u8
    ensures { result ≡ refusal_status refusal }
{
    match refusal {
        Refusal::Words => WORDS_REFUSED,
        Refusal::NoQuery(_) => QUERY_REFUSED,
        Refusal::UnfitSink => WORDS_REFUSED,
    }
}

/// The exit status of a fault.
pub fn status_of(fault: &ToolFault) -> u8
    ensures { result ≡ status_of fault.now }
{
    match fault {
        ToolFault::Refused(refusal) => refusal_status(*refusal),
        ToolFault::Missing { .. } => INPUT_REFUSED,
        ToolFault::Header { .. } => INPUT_REFUSED,
        ToolFault::Width { .. } => INPUT_REFUSED,
        ToolFault::Field { .. } => INPUT_REFUSED,
        ToolFault::InputFailed => INPUT_FAILED,
        ToolFault::OutputFailed => OUTPUT_FAILED,
        ToolFault::TooLarge => TOO_LARGE,
        ToolFault::Store { .. } => STORE_FAILED,
        ToolFault::Damaged { .. } => DAMAGED,
        ToolFault::Memory => NO_MEMORY,
    }
}

/// The fault of words that ask for nothing.
pub fn ask_fault(error: AskError) -> ToolFault
    ensures { result ≡ ask_fault error }
{
    match error {
        AskError::Refused(refusal) => ToolFault::Refused(refusal),
        AskError::Memory => ToolFault::Memory,
    }
}

/// The fault of files that are not read to their end.
fn read_fault(error: CsvError) -> ToolFault
    ensures { result ≡ read_fault error }
{
    match error {
        CsvError::Missing { file } => ToolFault::Missing { file },
        CsvError::Header { file } => ToolFault::Header { file },
        CsvError::Width { file, row } => ToolFault::Width { file, row },
        CsvError::Field { file, row, column } => ToolFault::Field { file, row, column },
        CsvError::Input => ToolFault::InputFailed,
        CsvError::TooLarge => ToolFault::TooLarge,
        CsvError::Memory => ToolFault::Memory,
    }
}

/// The fault of a run over files. Its limits, its query and its chunks were tested before.
pub fn file_fault(error: FileRunError) -> ToolFault
    requires { CanCome error }
    ensures { result ≡ file_fault error }
{
    match error {
        FileRunError::Read(error) => read_fault(error),
        FileRunError::Run(PipeError::Store { partition }) => ToolFault::Store { partition },
        FileRunError::Run(PipeError::Damaged { partition, number }) => {
            ToolFault::Damaged { partition, number }
        }
        FileRunError::Run(PipeError::Memory) => ToolFault::Memory,
        FileRunError::Run(_) => unreachable!(),
    }
}
