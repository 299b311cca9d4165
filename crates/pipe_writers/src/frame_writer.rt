//! A frame written whole.

ghost use Rattle.std.specs.Prelude.{◌≡◌, ◌++◌, is_some, IfOk, IsErrOf, OnErr, OnOk, flat_map};
ghost use Rattle.std.specs.Io.KnownBytes.{Appends};
ghost use Rattle.pipe_columns.specs.Causes.{HasCause};
ghost use Rattle.pipe_columns.specs.Frame.{FitsSchema};
ghost use Rattle.pipe_csv.specs.Texts.{csv_text};
ghost use Rattle.pipe_io.specs.Output.{WroteFront};
ghost use Rattle.pipe_writers.specs.JsonText.{json_text};
ghost use Rattle.pipe_lines.specs.Rows.{frame_rows};
ghost use Rattle.pipe_lines.specs.Lines.{text_of_lines};
ghost use Rattle.pipe_writers.specs.declared.write_error.WriteError.TheVariants as write_error;

use crate::csv_lines::CsvLines;
use crate::json_lines::JsonLines;
use crate::line_writer::{MOST_HELD, head_text, put_out};
use crate::write_error::WriteError;
use pipe_columns::{DataFrame, Field, Schema};
use pipe_io::Output;
use pipe_lines::Lines;
use std::alloc::{AllocError, Global};

/// The schema of a frame.
fn schema_of(alloc: Global, frame: &DataFrame) -> Result<Schema, AllocError>
    ensures { IfOk result (λ s. FitsSchema s frame.now) }
{
    let mut fields = Vec::new(alloc);
    for column in frame.columns() {
        let name = column.name().try_clone(alloc)?;
        let dtype = column.dtype();
        fields.push(Field { name, dtype })?;
    }
    Ok(Schema::new(fields))
}

/// Sends the head and the lines of a frame, or where something refuses a front of them.
fn send_lines<O: Output, L: Lines>(
    alloc: Global,
    output: &mut O,
    lines: &L,
    frame: &DataFrame,
) -> Result<(), WriteError>
    requires { FitsSchema (L.shape lines.now).fields frame.now }
    ensures all { OnOk result (Appends (O.told output.old) (O.told output.new)
        (text_of_lines (L.shape lines.now) (frame_rows frame.now))) }
    ensures front { OnErr result (WroteFront (O.told output.old) (O.told output.new)
        (text_of_lines (L.shape lines.now) (frame_rows frame.now))) }
    ensures tells { is_some (O.told output.new) ≡ is_some (O.told output.old) }
    ensures cause { HasCause (O.faults output.old) (O.faults output.new)
        (IsErrOf result write_error.Output) }
{
    let text = head_text(alloc, lines, false)?;
    put_out(output, lines, text, frame, MOST_HELD)?;
    Ok(())
}

/// Writes a frame as CSV, behind a line of its names. It holds no more of the text than a writer.
pub fn write_csv<O: Output>(
    alloc: Global,
    output: &mut O,
    frame: &DataFrame,
) -> Result<(), WriteError>
    ensures all { OnOk result
        (Appends (O.told output.old) (O.told output.new) (csv_text frame.now)) }
    ensures front { OnErr result
        (WroteFront (O.told output.old) (O.told output.new) (csv_text frame.now)) }
    ensures tells { is_some (O.told output.new) ≡ is_some (O.told output.old) }
    ensures cause { HasCause (O.faults output.old) (O.faults output.new)
        (IsErrOf result write_error.Output) }
{
    let lines = CsvLines {
        schema: schema_of(alloc, frame)?,
        include_header: true,
    };
    send_lines(alloc, output, &lines, frame)?;
    Ok(())
}

/// Writes a frame as lines of JSON. It holds no more of the text than a writer.
pub fn write_json<O: Output>(
    alloc: Global,
    output: &mut O,
    frame: &DataFrame,
) -> Result<(), WriteError>
    ensures all { OnOk result
        (Appends (O.told output.old) (O.told output.new) (json_text frame.now)) }
    ensures front { OnErr result
        (WroteFront (O.told output.old) (O.told output.new) (json_text frame.now)) }
    ensures tells { is_some (O.told output.new) ≡ is_some (O.told output.old) }
    ensures cause { HasCause (O.faults output.old) (O.faults output.new)
        (IsErrOf result write_error.Output) }
{
    let lines = JsonLines {
        alloc,
        schema: schema_of(alloc, frame)?,
    };
    send_lines(alloc, output, &lines, frame)?;
    Ok(())
}
