//! How faults are told.

ghost use Rattle.std.specs.Prelude.{◌≡◌, IfOk, string_bytes};
ghost use Rattle.memory_answer.specs.Faults.{fault_line, fault_text, read_text};

use crate::fault::Fault;
use pipe_csv::CsvError;
use std::alloc::{AllocError, Global};
use tool_query::no_query_name;

/// How it is told that a text is not read to its end.
fn read_text(alloc: Global, error: &CsvError) -> Result<String, AllocError>
    ensures { IfOk result (λ s. string_bytes s ≡ read_text error.now) }
{
    match error {
        CsvError::Missing { file } => format!(in alloc; "file {file}: missing"),
        CsvError::Header { file } => format!(in alloc; "file {file}: header"),
        CsvError::Width { file, row } => format!(in alloc; "file {file} row {row}: width"),
        CsvError::Field { file, row, column } => {
            format!(in alloc; "file {file} row {row} column {column}: field")
        }
        CsvError::Input => String::from_str(alloc, "input failed"),
        CsvError::TooLarge => String::from_str(alloc, "too large"),
        CsvError::Memory => String::from_str(alloc, "out of memory"),
    }
}

/// How a fault is told.
fn fault_text(alloc: Global, fault: &Fault) -> Result<String, AllocError>
    ensures { IfOk result (λ s. string_bytes s ≡ fault_text fault.now) }
{
    match fault {
        Fault::Words => String::from_str(alloc, "words refused"),
        Fault::Query(why) => format!(in alloc; "query refused: {}", no_query_name(*why)),
        Fault::Read(error) => read_text(alloc, error),
        Fault::Memory => String::from_str(alloc, "out of memory"),
    }
}

/// The line of a fault.
pub fn fault_line(alloc: Global, fault: &Fault) -> Result<String, AllocError>
    ensures { IfOk result (λ s. string_bytes s ≡ fault_line fault.now) }
{
    let mut line = fault_text(alloc, fault)?;
    line.push('\n')?;
    Ok(line)
}
