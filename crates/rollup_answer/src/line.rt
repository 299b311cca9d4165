//! How faults are told.

ghost use Rattle.std.specs.Prelude.{◌≡◌, ◌≢◌, ◌⊎◌, IfOk, string_bytes};
ghost use Rattle.pipe_io.specs.Output.{WroteFront};
ghost use Rattle.rollup_answer.specs.Faults.{fault_line, fault_text, read_text, refusal_text, roll_text, status_of};
ghost use Rattle.tool_shell.specs.Reports.{Reports};

use crate::fault::{RollupFault, status_of};
use pipe_csv::CsvError;
use pipe_io::Output;
use rollup_roll::RollError;
use rollup_words::Refusal;
use std::alloc::{AllocError, Global};
use tool_query::no_query_name;
use tool_shell::{NO_MEMORY, put_line};

/// How refused words are told.
fn refusal_text(alloc: Global, refusal: Refusal) -> Result<String, AllocError>
    ensures { IfOk result (λ s. string_bytes s ≡ refusal_text refusal) }
{
    match refusal {
        Refusal::Words => String::from_str(alloc, "words refused"),
        Refusal::Query(why) => format!(in alloc; "query refused: {}", no_query_name(why)),
        Refusal::Sliced => String::from_str(alloc, "query refused: slice"),
        Refusal::Keys => String::from_str(alloc, "keys refused"),
    }
}

/// How it is told that files were not saved.
fn read_text(alloc: Global, error: &CsvError) -> Result<String, AllocError>
    ensures { IfOk result (λ s. string_bytes s ≡ read_text error.now) }
{
    match error {
        CsvError::Missing { file } => format!(in alloc; "file {file}: missing"),
        CsvError::Header { file } => format!(in alloc; "file {file}: header"),
        CsvError::Width { file, row } => format!(in alloc; "file {file} row {row}: width"),
        CsvError::Field { file, row, column } => {
            format!(in alloc; "file {file} row {row} column {column}: field")
        }
        CsvError::Input => String::from_str(alloc, "input failed"),
        CsvError::TooLarge => String::from_str(alloc, "too large"),
        CsvError::Memory => String::from_str(alloc, "out of memory"),
    }
}

/// How it is told that states were not regrouped.
fn roll_text(alloc: Global, error: &RollError) -> Result<String, AllocError>
    ensures { IfOk result (λ s. string_bytes s ≡ roll_text error.now) }
{
    match error {
        RollError::Missing { file } => format!(in alloc; "file {file}: missing"),
        RollError::Input => String::from_str(alloc, "input failed"),
        RollError::NotAState { file } => format!(in alloc; "file {file}: no state"),
        RollError::Overlap { file } => format!(in alloc; "file {file}: overlap"),
        RollError::TooLarge => String::from_str(alloc, "too large"),
        RollError::Memory => String::from_str(alloc, "out of memory"),
    }
}

/// How a fault is told.
fn fault_text(alloc: Global, fault: &RollupFault) -> Result<String, AllocError>
    ensures { IfOk result (λ s. string_bytes s ≡ fault_text fault.now) }
{
    match fault {
        RollupFault::Refused(refusal) => refusal_text(alloc, *refusal),
        RollupFault::Save(error) => read_text(alloc, error),
        RollupFault::Roll(error) => roll_text(alloc, error),
        RollupFault::OutputFailed => String::from_str(alloc, "output failed"),
        RollupFault::Memory => String::from_str(alloc, "out of memory"),
    }
}

/// The line of a fault.
pub fn fault_line(alloc: Global, fault: &RollupFault) -> Result<String, AllocError>
    ensures { IfOk result (λ s. string_bytes s ≡ fault_line fault.now) }
{
    let mut line = fault_text(alloc, fault)?;
    line.push('\n')?;
    Ok(line)
}

/// Reports a fault by its line, and answers its exit status. Where memory is wanting for the line,
/// the status is that of wanting memory; the line of wanting memory itself takes none.
pub(crate) fn report<E: Output>(alloc: Global, messages: &mut E, fault: &RollupFault) -> u8
    ensures either { (result ≡ status_of fault.now) ⊎ (result ≡ NO_MEMORY) }
    ensures line { result ≢ NO_MEMORY → Reports (fault_line fault.now) (E.faults messages.old)
        (E.faults messages.new) (E.told messages.old) (E.told messages.new) }
    ensures front { WroteFront (E.told messages.old) (E.told messages.new) (fault_line fault.now) }
{
    let status = status_of(fault);
    if status == NO_MEMORY {
        return put_line(messages, b"out of memory\n", NO_MEMORY);
    }
    match fault_line(alloc, fault) {
        Ok(line) => put_line(messages, line.as_bytes(), status),
        Err(AllocError) => NO_MEMORY,
    }
}
