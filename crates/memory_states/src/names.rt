//! The names of files that have numbers alone.

ghost use Rattle.std.specs.Prelude.{◌≡◌, ◌<◌, ◌^◌, ◌+◌, IfOk};
ghost use Rattle.std.specs.Fmt.{decimal};
ghost use Rattle.memory_states.specs.Calls.{number_names};

use pipe_columns::Text;
use std::alloc::{AllocError, Global};

/// The name of the file of a number.
fn name_of(alloc: Global, number: usize) -> Result<Text, AllocError>
    ensures { IfOk result (λ t. t ≡ decimal number) }
{
    let digits = format!(in alloc; "{number}")?;
    Text::new(alloc, digits.as_str())
}

/// The names of so many files.
pub(crate) fn names_of(alloc: Global, count: usize) -> Result<Vec<Text>, AllocError>
    ensures { IfOk result (λ names. names.items ≡ number_names count) }
{
    let mut names = Vec::with_capacity(alloc, count)?;
    for i in 0..count {
        names.push(name_of(alloc, i + 1)?)?;
    }
    Ok(names)
}
