//! The text of a frame.

ghost use Rattle.std.specs.Prelude.{◌≡◌, ◌++◌, IfOk, OnOk};
ghost use Rattle.memory_answer.specs.Answers.{text_in};

use crate::text_output::TextOutput;
use pipe_columns::DataFrame;
use pipe_words::Format;
use pipe_writers::{write_csv, write_json};
use std::alloc::{AllocError, Global};

/// Writes the text of a frame.
fn write_frame(
    alloc: Global,
    output: &mut TextOutput,
    frame: &DataFrame,
    format: Format,
) -> Result<(), AllocError>
    ensures { OnOk result (output.new ≡ output.old ++ text_in format frame.now) }
{
    let wrote = match format {
        Format::Csv => write_csv(alloc, output, frame),
        Format::Json => write_json(alloc, output, frame),
    };
    match wrote {
        Ok(()) => Ok(()),
        Err(_) => Err(AllocError),
    }
}

/// The text of a frame.
pub fn text_of_frame(
    alloc: Global,
    frame: &DataFrame,
    format: Format,
) -> Result<Vec<u8>, AllocError>
    ensures { IfOk result (λ text. text.items ≡ text_in format frame.now) }
{
    let mut output = TextOutput::new(alloc);
    write_frame(alloc, &mut output, frame, format)?;
    Ok(output.into_bytes())
}
