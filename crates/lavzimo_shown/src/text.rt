//! The text that is shown of an answer.

ghost use Rattle.std.specs.Prelude.{◌≡◌, IfOk};
ghost use Rattle.pipe_lines.specs.Rows.{frame_rows};
ghost use Rattle.lavzimo_shown.specs.Showing as spec;

use crate::showing::Showing;
use lavzimo_rows::{Shown, csv_text, json_text};
use pipe_columns::DataFrame;
use pipe_words::Format;
use std::alloc::{AllocError, Global};

/// A frame, or where it has no rows the one that stands in its place.
fn frame_or<'a>(none: &'a DataFrame, frame: &'a DataFrame) -> &'a DataFrame
    ensures { frame_rows result.now ≡ spec.rows_or (frame_rows none.now) (frame_rows frame.now) }
{
    if frame.height() == 0 { none } else { frame }
}

/// The text of a frame's rows in a format.
fn text_of(
    alloc: Global,
    format: Format,
    shown: &Shown,
    frame: &DataFrame,
) -> Result<Vec<u8>, AllocError>
    ensures { IfOk result
        (λ v. v.items ≡ spec.text_shown format shown.now (frame_rows frame.now)) }
{
    match format {
        Format::Csv => csv_text(alloc, shown, frame),
        Format::Json => json_text(alloc, shown, frame),
    }
}

/// The text that is shown of an answer in a format.
pub fn shown_text(
    alloc: Global,
    format: Format,
    showing: &Showing,
    answer: &DataFrame,
) -> Result<Vec<u8>, AllocError>
    ensures { IfOk result (λ v. v.items ≡ spec.shown_text format showing.now answer.now) }
{
    let frame = frame_or(&showing.none, answer);
    text_of(alloc, format, &showing.shown, frame)
}
