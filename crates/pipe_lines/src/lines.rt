//! Rows as lines of a text.

ghost use Rattle.std.specs.Prelude.{◌≡◌, ◌++◌, ◌<◌, ◌≤◌, IfOk, length};
ghost use Rattle.pipe_columns.specs.Frame.{FitsSchema};
ghost use Rattle.pipe_lines.specs.Lines.{GoesOn};
ghost use Rattle.pipe_lines.specs.Rows.{frame_rows};
ghost use Rattle.pipe_lines.specs.Lines.{LineText};

use pipe_columns::{DataFrame, Schema};
use std::alloc::AllocError;

/// A text, and the first row whose line isn't in it.
#[derive(Drop)]
pub struct Piece {
    pub text: Vec<u8>,
    pub next: usize,
}

/// How rows become lines of a text.
pub trait Lines {
    /// The text in front, and the line of a row.
    ghost shape: { Self → LineText };

    /// The schema of the rows.
    fn schema(&self) -> &Schema
        ensures { result.now ≡ (shape self.now).fields };

    /// A text with what stands in front of the lines.
    fn add_head(&self, text: Vec<u8>) -> Result<Vec<u8>, AllocError>
        ensures { IfOk result (λ v. v.items ≡ text.items ++ (shape self.now).head) };

    /// A text with the lines of rows from a place on: of one at least where there is one, and of
    /// further ones until it is `most` bytes long or the frame ends.
    fn add_lines(
        &self,
        text: Vec<u8>,
        frame: &DataFrame,
        from: usize,
        most: usize,
    ) -> Result<Piece, AllocError>
        requires fits { FitsSchema (shape self.now).fields frame.now }
        requires within { from ≤ frame.now.height }
        ensures lines { IfOk result (λ p. GoesOn (shape self.now).line (frame_rows frame.now) from
            p.next text.items p.text.items) }
        ensures further { IfOk result (λ p. from < frame.now.height → from < p.next) }
        ensures within { IfOk result (λ p. p.next ≤ frame.now.height) }
        ensures long { IfOk result (λ p. p.next < frame.now.height → most ≤ length p.text.items) };
}
