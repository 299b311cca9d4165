//! Why a command on a summary ends without its answer.

ghost use Rattle.std.specs.Prelude.{◌≡◌};
ghost use Rattle.summary_answer.specs.Faults.{read_status, refusal_status, status_of};
ghost use Rattle.summary_answer.specs.Inside.{add_fault, added_fault, ask_fault, read_fault, store_fault};

use crate::status::{FRAME_DAMAGED, STORE_FAILED};
use pipe_csv::CsvError;
use pipe_spill::StoreError;
use pipe_summary::ReadError;
use summary_add::AddFault;
use summary_words::{AskError, Refusal};
use tool_shell::{
    INPUT_FAILED, INPUT_REFUSED, NO_MEMORY, OUTPUT_FAILED, QUERY_REFUSED, TOO_LARGE, WORDS_REFUSED,
};

/// Why a command ended without its answer.
#[derive(Debug, Drop)]
pub enum SummaryFault {
    /// The words are refused.
    Refused(Refusal),
    /// The store failed, or wasn't opened.
    Store,
    /// The frame of a number, counted from 0, is the first that is damaged.
    Damaged { number: u64 },
    /// Files were not added.
    Read(CsvError),
    /// A write failed.
    OutputFailed,
    /// Memory ran out.
    Memory,
}

/// The exit status of words that are refused.
fn refusal_status(refusal: Refusal) -> u8
    ensures { result ≡ refusal_status refusal }
{
    match refusal {
        Refusal::Words => WORDS_REFUSED,
        Refusal::Query(_) => QUERY_REFUSED,
        Refusal::Ordered => QUERY_REFUSED,
    }
}

/// The exit status of files that were not added.
fn read_status(error: &CsvError) -> u8
    ensures { result ≡ read_status error.now }
{
    match error {
        CsvError::Missing { .. } => INPUT_REFUSED,
        CsvError::Header { .. } => INPUT_REFUSED,
        CsvError::Width { .. } => INPUT_REFUSED,
        CsvError::Field { .. } => INPUT_REFUSED,
        CsvError::Input => INPUT_FAILED,
        CsvError::TooLarge => TOO_LARGE,
        CsvError::Memory => NO_MEMORY,
    }
}

/// The exit status of a fault.
pub(crate) fn status_of(fault: &SummaryFault) -> u8
    ensures { result ≡ status_of fault.now }
{
    match fault {
        SummaryFault::Refused(refusal) => refusal_status(*refusal),
        SummaryFault::Store => STORE_FAILED,
        SummaryFault::Damaged { .. } => FRAME_DAMAGED,
        SummaryFault::Read(error) => read_status(error),
        SummaryFault::OutputFailed => OUTPUT_FAILED,
        SummaryFault::Memory => NO_MEMORY,
    }
}

/// The fault of words that ask for nothing.
pub(crate) fn ask_fault(error: AskError) -> SummaryFault
    ensures { result ≡ ask_fault error }
{
    match error {
        AskError::Refused(refusal) => SummaryFault::Refused(refusal),
        AskError::Memory => SummaryFault::Memory,
    }
}

/// The fault of a store that wasn't opened.
pub(crate) fn store_fault(error: StoreError) -> SummaryFault
    ensures { result ≡ store_fault error }
{
    match error {
        StoreError::Failed => SummaryFault::Store,
        StoreError::Memory => SummaryFault::Memory,
    }
}

/// The fault of frames that weren't read.
pub(crate) fn read_fault(error: ReadError) -> SummaryFault
    ensures { result ≡ read_fault error }
{
    match error {
        ReadError::Store => SummaryFault::Store,
        ReadError::Damaged { number } => SummaryFault::Damaged { number },
        ReadError::Memory => SummaryFault::Memory,
    }
}

/// The fault of files that weren't added.
fn add_fault(error: AddFault) -> SummaryFault
    ensures { result ≡ add_fault error }
{
    match error {
        AddFault::Read(error) => SummaryFault::Read(error),
        AddFault::Store => SummaryFault::Store,
    }
}

/// How an addition ended.
pub(crate) fn added_fault(added: Result<(), AddFault>) -> Option<SummaryFault>
    ensures { result ≡ added_fault added }
{
    match added {
        Ok(()) => None,
        Err(error) => Some(add_fault(error)),
    }
}
