//! Where the chunks of a text begin, found in pieces of it that were looked over.

ghost use Rattle.std.specs.Prelude.{◌≡◌, ◌<◌, ◌+◌, ℕ, IfOk, OnOk};
ghost use Rattle.pipe_source.specs.PieceRows.{ArePlaces};
ghost use Rattle.pipe_source.specs.Rows.{IsStart};
ghost use Rattle.pipe_source.specs.Starts.{AreNoted};

use crate::piece_check::PieceRows;
use crate::starts::Starts;
use csv::ByteRecord;
use pipe_scan::{Skip, Stops, skip_rows};
use std::alloc::AllocError;

/// Where a row of a piece begins, counted from 0: it is gone on to from the last place before it
/// that was noted.
fn row_place(
    text: &[u8],
    piece: &PieceRows,
    row: usize,
    grain: usize,
    ends: &mut [usize],
    entry: &mut ByteRecord,
    bytes: &mut Vec<u8>,
) -> Result<usize, AllocError>
    requires places { ArePlaces text.now grain piece.now }
    requires grain { 0 < grain }
    requires row { row < piece.now.count }
    ensures { IfOk result (λ place. IsStart text.now piece.now.low row place) }
{
    let noted = piece.places[row / grain];
    let mut stops = Stops::new(piece.low + noted);
    match skip_rows(text, &mut stops, ends, entry, bytes, row % grain)? {
        Skip::Done => Ok(stops.cursor()),
        Skip::End(_) => Err(AllocError),
        Skip::OtherWidth(_) => Err(AllocError),
    }
}

/// The rows of a piece come behind those so far.
pub(crate) fn note_piece(
    text: &[u8],
    piece: &PieceRows,
    grain: usize,
    starts: &mut Starts,
    ends: &mut [usize],
    entry: &mut ByteRecord,
    bytes: &mut Vec<u8>,
) -> Result<(), AllocError>
    requires places { ArePlaces text.now grain piece.now }
    requires grain { 0 < grain }
    requires size { 0 < starts.old.size }
    ensures size { starts.new.size ≡ starts.old.size }
    ensures noted { OnOk result ((at before : ℕ) → AreNoted text.now at before starts.old
        → IsStart text.now at before piece.now.low
        → AreNoted text.now at (before + piece.now.count) starts.new) }
{
    let mut left = piece.count;
    while starts.until < left {
        left -= starts.until;
        starts.pass(starts.until);
        let row = piece.count - left;
        let place = row_place(text, piece, row, grain, ends, entry, bytes)?;
        starts.note(place)?;
        left -= 1;
    }
    starts.pass(left);
    Ok(())
}
