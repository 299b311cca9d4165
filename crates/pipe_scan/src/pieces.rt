//! Cuts of a text behind the ends of lines.

ghost use Rattle.std.specs.Prelude.{◌++◌, ◌<◌, ◌≡◌, ◌≤◌, IfOk, drop, length, true};
ghost use Rattle.csv.specs.Reading.{default_config, records};
ghost use Rattle.pipe_scan.specs.Lines.{has_no_quote};
ghost use Rattle.pipe_scan.specs.Pieces.{ArePieces, IsPiece, records_of_pieces};
ghost use Rattle.pipe_scan.specs.Records.{between, records_at};

use std::alloc::{AllocError, Global};

/// Where a piece from `at` on ends, of `size` bytes or a few more: behind the end of a line, or with
/// the text. Where the piece has no quote, the records of the rest are its own and those behind it.
pub fn piece_end(text: &[u8], at: usize, size: usize) -> usize
    requires within { at ≤ length text.now }
    requires size { 0 < size }
    ensures piece { IsPiece text.now size at result }
    ensures records { has_no_quote (between text.now at result) ≡ true
        → records_at text.now at
        ≡ records default_config (between text.now at result) ++ records_at text.now result }
{
    if text.len() - at <= size {
        return text.len();
    }
    for i in at + size - 1..text.len() {
        if text[i] == b'\n' || text[i] == b'\r' {
            return i + 1;
        }
    }
    text.len()
}

/// Where the pieces of a text from `at` on end, each of `size` bytes or a few more. The records of
/// a text without a quote are those of its pieces.
pub fn piece_ends(
    alloc: Global,
    text: &[u8],
    at: usize,
    size: usize,
) -> Result<Vec<usize>, AllocError>
    requires within { at ≤ length text.now }
    requires size { 0 < size }
    ensures pieces { IfOk result (λ v. ArePieces text.now size at v.items) }
    ensures records { IfOk result (λ v. has_no_quote (drop at text.now) ≡ true
        → records_at text.now at ≡ records_of_pieces text.now at v.items) }
{
    let mut ends = Vec::new(alloc);
    let mut low = at;
    while low < text.len() {
        let end = piece_end(text, low, size);
        if ends.push(end).is_err() {
            return Err(AllocError);
        }
        low = end;
    }
    Ok(ends)
}
