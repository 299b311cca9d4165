//! Why a command on saved states ends without its answer.

ghost use Rattle.std.specs.Prelude.{◌≡◌};
ghost use Rattle.rollup_answer.specs.Faults.{read_status, refusal_status, roll_status, status_of};
ghost use Rattle.rollup_answer.specs.Inside.{ask_fault};

use crate::status::{KEYS_REFUSED, NOT_A_STATE, OVERLAP};
use pipe_csv::CsvError;
use rollup_roll::RollError;
use rollup_words::{AskError, Refusal};
use tool_shell::{
    INPUT_FAILED, INPUT_REFUSED, NO_MEMORY, OUTPUT_FAILED, QUERY_REFUSED, TOO_LARGE, WORDS_REFUSED,
};

/// Why a command ended without its answer.
#[derive(Debug, Drop)]
pub enum RollupFault {
    /// The words are refused.
    Refused(Refusal),
    /// Files were not saved.
    Save(CsvError),
    /// States were not regrouped.
    Roll(RollError),
    /// A write failed.
    OutputFailed,
    /// Memory ran out.
    Memory,
}

/// The exit status of words that are refused.
fn refusal_status(refusal: Refusal) -> u8
    ensures { result ≡ refusal_status refusal }
{
    match refusal {
        Refusal::Words => WORDS_REFUSED,
        Refusal::Query(_) => QUERY_REFUSED,
        Refusal::Sliced => QUERY_REFUSED,
        Refusal::Keys => KEYS_REFUSED,
    }
}

/// The exit status of files that were not saved.
fn read_status(error: &CsvError) -> u8
    ensures { result ≡ read_status error.now }
{
    match error {
        CsvError::Missing { .. } => INPUT_REFUSED,
        CsvError::Header { .. } => INPUT_REFUSED,
        CsvError::Width { .. } => INPUT_REFUSED,
        CsvError::Field { .. } => INPUT_REFUSED,
        CsvError::Input => INPUT_FAILED,
        CsvError::TooLarge => TOO_LARGE,
        CsvError::Memory => NO_MEMORY,
    }
}

/// The exit status of states that were not regrouped.
fn roll_status(error: &RollError) -> u8
    ensures { result ≡ roll_status error.now }
{
    match error {
        RollError::Missing { .. } => INPUT_REFUSED,
        RollError::Input => INPUT_FAILED,
        RollError::NotAState { .. } => NOT_A_STATE,
        RollError::Overlap { .. } => OVERLAP,
        RollError::TooLarge => TOO_LARGE,
        RollError::Memory => NO_MEMORY,
    }
}

/// The exit status of a fault.
pub fn status_of(fault: &RollupFault) -> u8
    ensures { result ≡ status_of fault.now }
{
    match fault {
        RollupFault::Refused(refusal) => refusal_status(*refusal),
        RollupFault::Save(error) => read_status(error),
        RollupFault::Roll(error) => roll_status(error),
        RollupFault::OutputFailed => OUTPUT_FAILED,
        RollupFault::Memory => NO_MEMORY,
    }
}

/// The fault of words that ask for nothing.
pub fn ask_fault(error: AskError) -> RollupFault
    ensures { result ≡ ask_fault error }
{
    match error {
        AskError::Refused(refusal) => RollupFault::Refused(refusal),
        AskError::Memory => RollupFault::Memory,
    }
}
