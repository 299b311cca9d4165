//! Texts that stand already, written whole.

ghost use Rattle.std.specs.Prelude.{◌≡◌, ◌++◌, is_some, IsErrOf, OnErr, OnOk};
ghost use Rattle.std.specs.Io.KnownBytes.{Appends};
ghost use Rattle.pipe_columns.specs.Causes.{HasCause};
ghost use Rattle.pipe_io.specs.Output.{WroteFront};
ghost use Rattle.pipe_lines.specs.Lines.{joined_texts};
ghost use Rattle.pipe_writers.specs.declared.write_error.WriteError.TheVariants as write_error;

use crate::write_error::{WriteError, send};
use pipe_io::Output;

/// Writes a head and then texts, one behind another, or where the output refuses a front of them.
pub fn write_texts<O: Output>(
    output: &mut O,
    head: &[u8],
    texts: &[Vec<u8>],
) -> Result<(), WriteError>
    ensures all { OnOk result (Appends (O.told output.old) (O.told output.new)
        (head.now ++ joined_texts texts.now)) }
    ensures front { OnErr result (WroteFront (O.told output.old) (O.told output.new)
        (head.now ++ joined_texts texts.now)) }
    ensures tells { is_some (O.told output.new) ≡ is_some (O.told output.old) }
    ensures cause { HasCause (O.faults output.old) (O.faults output.new)
        (IsErrOf result write_error.Output) }
{
    send(output, head)?;
    for place in 0..texts.len() {
        send(output, &texts[place])?;
    }
    Ok(())
}
