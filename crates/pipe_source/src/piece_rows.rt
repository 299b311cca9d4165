//! A text that is looked over in pieces side by side.

ghost use Rattle.std.specs.Prelude.{◌≡◌, ◌≤◌, ◌<◌, IfOk, List, None, Ok, length};
ghost use Rattle.pipe_columns.specs.declared.any_value.AnyValue.{AnyValue};
ghost use Rattle.pipe_io.specs.declared.whole_file.TheConstants.{MOST_FILE_BYTES};
ghost use Rattle.pipe_source.specs.ByName.{text_rows_by};
ghost use Rattle.pipe_source.specs.LaidRows.{AreLaidAt};
ghost use Rattle.pipe_source.specs.Layout.{FitsAny, LayoutFits};
ghost use Rattle.pipe_source.specs.PieceRows.{AreRowsTo};
ghost use Rattle.pipe_source.specs.Rows.{AreStarts};

use crate::begins::find_begin_by;
use crate::laid_check::row_width;
use crate::layout::Layout;
use crate::piece_check::{check_each, piece_bounds};
use crate::piece_starts::note_piece;
use crate::starts::Starts;
use csv::ByteRecord;
use pipe_columns::Field;
use pipe_csv::CsvError;
use std::alloc::{AllocError, Global};
use std::thread::Threads;

/// At most so many rows of a piece stand between two of which the place is noted.
const MOST_ROWS: usize = 1024;

/// Places are noted so many times as often as chunks begin, where chunks aren't large.
const PLACES: usize = 64;

/// How many bytes a piece has, and that the place of every so many of its rows is noted.
#[derive(Clone, Copy, Drop)]
pub(crate) struct PieceSizes {
    pub(crate) bytes: usize,
    pub(crate) grain: usize,
}

impl PieceSizes {
    /// So many bytes are cut for so many threads, and chunks have so many rows.
    pub(crate) fn new(bytes: usize, threads: usize, rows: usize) -> PieceSizes
        requires { 1 < threads }
        ensures bytes { 0 < result.bytes }
        ensures grain { 0 < result.grain }
    {
        PieceSizes {
            bytes: bytes / threads + 1,
            grain: (rows / PLACES).min(MOST_ROWS).max(1),
        }
    }
}

/// Looks over the rows of a text from a place on in pieces side by side, and tells how many there
/// are, and where each chunk of a size begins. Where a row doesn't fit, or one has a quote, it answers as
/// for want of memory.
fn check_pieces<H: Threads + Sync>(
    rt: &H,
    alloc: Global,
    text: &[u8],
    begin: usize,
    fields: &[Field],
    layout: &Option<Layout>,
    file: usize,
    size: usize,
    sizes: PieceSizes,
) -> Result<(usize, Vec<usize>), AllocError>
    requires small { length text.now ≤ MOST_FILE_BYTES }
    requires within { begin ≤ length text.now }
    requires size { 0 < size }
    requires bytes { 0 < sizes.bytes }
    requires grain { 0 < sizes.grain }
    requires fit { FitsAny fields.now layout.now }
    ensures rows { IfOk result
        (λ r. AreRowsTo layout.now fields.now text.now begin (length text.now) r.0) }
    ensures starts { IfOk result (λ r. AreStarts text.now begin size r.0 r.1.items) }
{
    let grain = sizes.grain;
    let bounds = piece_bounds(alloc, text, begin, sizes.bytes)?;
    let pieces = check_each(rt, alloc, text, &bounds, fields, layout, file, grain)?;
    let mut ends = vec![in alloc; 0; row_width(fields, layout)]?;
    let mut entry = ByteRecord::new(alloc);
    let mut field = Vec::new(alloc);
    let mut starts = Starts::new(alloc, size);
    let mut count = 0;
    for n in 0..pieces.len() {
        let Ok(piece) = &pieces[n] else {
            return Err(AllocError);
        };
        note_piece(
            text,
            piece,
            grain,
            &mut starts,
            &mut ends,
            &mut entry,
            &mut field,
        )?;
        count += piece.count;
    }
    Ok((count, starts.places))
}

/// Looks over the text of a file in pieces side by side. An error says nothing of the text.
pub(crate) fn look_over_pieces<H: Threads + Sync>(
    rt: &H,
    alloc: Global,
    text: &[u8],
    fields: &[Field],
    file: usize,
    by_name: bool,
    size: usize,
    sizes: PieceSizes,
) -> Result<(Option<Layout>, usize, usize, Vec<usize>), CsvError>
    requires small { length text.now ≤ MOST_FILE_BYTES }
    requires size { 0 < size }
    requires bytes { 0 < sizes.bytes }
    requires grain { 0 < sizes.grain }
    ensures rows { IfOk result (λ r. (rows : List (List AnyValue))
        × (text_rows_by by_name file None fields.now text.now ≡ Ok rows)
        × AreLaidAt r.0 fields.now text.now r.1 r.2 rows) }
    ensures fit { IfOk result (λ r. LayoutFits fields.now by_name r.0) }
    ensures starts { IfOk result (λ r. AreStarts text.now r.1 size r.2 r.3.items) }
    ensures few { IfOk result (λ r. r.2 ≤ MOST_FILE_BYTES) }
{
    let (layout, begin) = match find_begin_by(alloc, text, fields, file, by_name) {
        Ok(found) => found,
        Err(error) => return Err(error),
    };
    let (count, starts) = check_pieces(rt, alloc, text, begin, fields, &layout, file, size, sizes)?;
    Ok((layout, begin, count, starts))
}
