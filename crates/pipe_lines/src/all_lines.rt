//! All rows of a frame as lines behind a text.

ghost use Rattle.std.specs.Prelude.{◌≡◌, ◌++◌, IfOk};
ghost use Rattle.pipe_columns.specs.Frame.{FitsSchema};
ghost use Rattle.pipe_lines.specs.Lines.{lines_of};

use crate::lines::Lines;
use pipe_columns::DataFrame;
use std::alloc::AllocError;

/// A text with the lines of all rows of a frame behind it.
pub fn add_all_lines<L: Lines>(
    lines: &L,
    text: Vec<u8>,
    frame: &DataFrame,
) -> Result<Vec<u8>, AllocError>
    requires { FitsSchema (L.shape lines.now).fields frame.now }
    ensures { IfOk result
        (λ v. v.items ≡ text.items ++ lines_of (L.shape lines.now) frame.now) }
{
    let mut piece = lines.add_lines(text, frame, 0, usize::MAX)?;
    while piece.next < frame.height() {
        piece = lines.add_lines(piece.text, frame, piece.next, usize::MAX)?;
    }
    Ok(piece.text)
}
