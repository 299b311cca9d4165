//! Second looks: at a file that isn't read to its end, and at an output that failed. Nothing is
//! claimed of them.

use crate::fault::Fault;
use crate::names::Names;
use pipe_columns::Text;
use pipe_csv::CsvError;
use pipe_io::Output;
use std::alloc::{AllocError, Global};
use tool_run::FileRunError;

/// What a second look gives: how something is, and what stands behind it.
#[derive(Drop)]
pub struct Look {
    pub how: Text,
    pub more: Text,
}

/// Looks again at files that were not read to their end.
pub trait Looks {
    /// What is seen of an error, if anything is.
    fn look(&mut self, names: &Names, error: &CsvError) -> Option<Look>;
}

/// An output that knows whether what reads it is gone.
pub trait ClosableOutput: Output {
    /// Whether it failed since its reader is gone.
    fn is_closed(&self) -> bool;
}

/// What is told without a look.
fn no_look(error: &CsvError) -> (&'static str, &'static str) {
    match error {
        CsvError::Field { row: 0, .. } => ("no", ", or more than one"),
        CsvError::Input | CsvError::TooLarge => ("the input", ""),
        _ => ("", ""),
    }
}

/// A look of these texts.
fn look_with(alloc: Global, how: &str, more: &str) -> Result<Look, AllocError> {
    let how = Text::new(alloc, how)?;
    let more = Text::new(alloc, more)?;
    Ok(Look { how, more })
}

/// What a second look at a fault gives, or what is told without one.
pub(crate) fn look_of<L: Looks>(
    alloc: Global,
    looks: &mut L,
    fault: &Fault,
) -> Result<Look, AllocError> {
    let Fault::Run {
        names,
        error: FileRunError::Read(error),
    } = fault
    else {
        return look_with(alloc, "", "");
    };
    match looks.look(names, error) {
        Some(look) => Ok(look),
        None => {
            let (how, more) = no_look(error);
            look_with(alloc, how, more)
        }
    }
}
