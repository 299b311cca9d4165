//! How faults are told.

ghost use Rattle.std.specs.Prelude.{◌≡◌, ◌≢◌, ◌⊎◌, IfOk, string_bytes};
ghost use Rattle.pipe_io.specs.Output.{WroteFront};
ghost use Rattle.tool_shell.specs.Reports.{Reports};
ghost use Rattle.tool_answer.specs.Faults.{fault_line, fault_text, refusal_text, status_of};

use crate::fault::{ToolFault, status_of};
use pipe_io::Output;
use std::alloc::{AllocError, Global};
use tool_query::no_query_name;
use tool_shell::{NO_MEMORY, put_line};
use tool_words::Refusal;

/// How refused words are told.
fn refusal_text(alloc: Global, refusal: Refusal) -> Result<String, AllocError>
    ensures { IfOk result (λ s. string_bytes s ≡ refusal_text refusal) }
{
    match refusal {
        Refusal::Words => String::from_str(alloc, "words refused"),
        Refusal::NoQuery(why) => format!(in alloc; "query refused: {}", no_query_name(why)),
        Refusal::UnfitSink => String::from_str(alloc, "sink does not fit"),
    }
}

/// How a fault is told.
fn fault_text(alloc: Global, fault: &ToolFault) -> Result<String, AllocError>
    ensures { IfOk result (λ s. string_bytes s ≡ fault_text fault.now) }
{
    match fault {
        ToolFault::Refused(refusal) => refusal_text(alloc, *refusal),
        ToolFault::Missing { file } => format!(in alloc; "file {file}: missing"),
        ToolFault::Header { file } => format!(in alloc; "file {file}: header"),
        ToolFault::Width { file, row } => format!(in alloc; "file {file} row {row}: width"),
        ToolFault::Field { file, row, column } => {
            format!(in alloc; "file {file} row {row} column {column}: field")
        }
        ToolFault::InputFailed => String::from_str(alloc, "input failed"),
        ToolFault::OutputFailed => String::from_str(alloc, "output failed"),
        ToolFault::TooLarge => String::from_str(alloc, "too large"),
        ToolFault::Store { partition } => format!(in alloc; "store {partition} failed"),
        ToolFault::Damaged { partition, number } => {
            format!(in alloc; "store {partition} frame {number} damaged")
        }
        ToolFault::Memory => String::from_str(alloc, "out of memory"),
    }
}

/// The line of a fault.
fn fault_line(alloc: Global, fault: &ToolFault) -> Result<String, AllocError>
    ensures { IfOk result (λ s. string_bytes s ≡ fault_line fault.now) }
{
    let mut line = fault_text(alloc, fault)?;
    line.push('\n')?;
    Ok(line)
}

/// Reports a fault by its line, and answers its exit status. Where memory is wanting for the line, the
/// status is that of wanting memory; the line of wanting memory itself takes none.
pub fn report<E: Output>(alloc: Global, messages: &mut E, fault: &ToolFault) -> u8
    ensures either { (result ≡ status_of fault.now) ⊎ (result ≡ NO_MEMORY) }
    ensures status { result ≢ NO_MEMORY → result ≡ status_of fault.now }
    ensures line { result ≢ NO_MEMORY → Reports (fault_line fault.now) (E.faults messages.old)
        (E.faults messages.new) (E.told messages.old) (E.told messages.new) }
    ensures front { WroteFront (E.told messages.old) (E.told messages.new) (fault_line fault.now) }
{
    if let ToolFault::Memory = fault {
        return put_line(messages, b"out of memory\n", NO_MEMORY);
    }
    match fault_line(alloc, fault) {
        Ok(line) => put_line(messages, line.as_bytes(), status_of(fault)),
        Err(AllocError) => NO_MEMORY,
    }
}
