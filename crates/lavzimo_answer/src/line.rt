//! The line of a fault.

ghost use Rattle.std.specs.Prelude.{◌≡◌, IfOk, string_bytes};
ghost use Rattle.lavzimo_answer.specs.Faults.{IsLineOf, IsTextOf};
ghost use Rattle.lavzimo_answer.specs.Lines as spec;
ghost use Rattle.lavzimo_answer.specs.Looks.{look_seen};
ghost use Rattle.lavzimo_answer.specs.Names.{names_seen};

use crate::fault::Fault;
use crate::look::{Look, Looks, look_of};
use crate::names::Names;
use crate::read_line::{read_text, told_name};
use crate::words_line::{faulty_text, refusal_text};
use pipe_columns::Text;
use pipe_io::FileEnd;
use pipe_run::PipeError;
use std::alloc::{AllocError, Global};
use tool_query::{NoQuery, no_query_name};
use tool_run::FileRunError;

/// How it is told that the file of a query isn't read.
fn unread_text(alloc: Global, name: &Text, end: &FileEnd) -> Result<String, AllocError>
    ensures { IfOk result (λ s. string_bytes s ≡ spec.unread_text name.now end.now) }
{
    let name = told_name(name.as_str());
    match end {
        FileEnd::Missing => format!(in alloc; "{name}: no such file"),
        FileEnd::Failed => format!(in alloc; "{name} can't be read"),
        FileEnd::TooLarge => format!(in alloc; "{name} is too large"),
        FileEnd::Memory => String::from_str(alloc, "out of memory"),
    }
}

/// How it is told that a file has no query.
fn no_query_text(alloc: Global, name: &Text, why: NoQuery) -> Result<String, AllocError>
    ensures { IfOk result (λ s. string_bytes s ≡ spec.no_query_text name.now why) }
{
    let name = told_name(name.as_str());
    let why = no_query_name(why);
    format!(in alloc; "{name}: query refused: {why}")
}

/// How it is told that a run is refused.
fn refused_text(error: &PipeError) -> &'static str
    ensures { result.now ≡ spec.refused_text error.now }
{
    match error {
        PipeError::Store { .. } => "a file of spilled rows failed",
        PipeError::Damaged { .. } => "a file of spilled rows is damaged",
        _ => "out of memory",
    }
}

/// How it is told that a run ended early.
fn run_text(
    alloc: Global,
    names: &Names,
    error: &FileRunError,
    look: &Look,
) -> Result<String, AllocError>
    ensures { IfOk result (λ s. string_bytes s ≡ spec.run_text (names_seen names.now) error.now
        (look_seen look.now)) }
{
    match error {
        FileRunError::Read(error) => read_text(alloc, names, error, look),
        FileRunError::Run(error) => String::from_str(alloc, refused_text(error)),
    }
}

/// How a fault is told, with what a second look gives.
fn fault_text(alloc: Global, fault: &Fault, look: &Look) -> Result<String, AllocError>
    ensures { IfOk result (λ s. IsTextOf fault.now (look_seen look.now) (string_bytes s)) }
{
    match fault {
        Fault::Faulty(text) => faulty_text(alloc, text),
        Fault::Refused(refusal) => refusal_text(alloc, refusal),
        Fault::Unread { name, end } => unread_text(alloc, name, end),
        Fault::NoQuery { name, why } => no_query_text(alloc, name, *why),
        Fault::Run { names, error } => run_text(alloc, names, error, look),
        Fault::OutputFailed => String::from_str(alloc, "output failed"),
        Fault::Memory => String::from_str(alloc, "out of memory"),
    }
}

/// The line of a fault.
#[tactic(auto, using(crate::proofs::ReportFacts::line_of))]
pub(crate) fn fault_line<L: Looks>(
    alloc: Global,
    looks: &mut L,
    fault: &Fault,
) -> Result<String, AllocError>
    ensures { IfOk result (λ s. IsLineOf fault.now (string_bytes s)) }
{
    let look = look_of(alloc, looks, fault)?;
    let mut line = fault_text(alloc, fault, &look)?;
    line.push('\n')?;
    Ok(line)
}
