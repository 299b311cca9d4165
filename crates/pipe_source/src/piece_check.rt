//! A text that is cut into pieces behind the ends of lines, which are looked over side by side. Where none
//! has a quote, they have the text's records.

ghost use Rattle.std.specs.Prelude.{◌≡◌, ◌≤◌, ◌<◌, ◌+◌, ℕ, IfOk, Result, get_or, length};
ghost use Rattle.pipe_csv.specs.declared.csv_error.CsvError.{CsvError};
ghost use Rattle.pipe_io.specs.declared.whole_file.TheConstants.{MOST_FILE_BYTES};
ghost use Rattle.pipe_source.specs.declared.piece_check.PieceRows.{PieceRows};
ghost use Rattle.pipe_source.specs.Layout.{FitsAny};
ghost use Rattle.pipe_source.specs.PieceRows.{AreBounds, AreParts, IsPart, IsPieceAt};

use crate::laid_check::check_laid_rows;
use crate::layout::Layout;
use pipe_columns::Field;
use pipe_csv::CsvError;
use pipe_scan::{has_quote, piece_end};
use pipe_threads::for_each_beside;
use std::alloc::{AllocError, Global};
use std::thread::Threads;

/// Where a piece of a text begins, how many rows it has, and the place of every so many of them,
/// counted from where the piece begins.
#[derive(Drop)]
pub(crate) struct PieceRows {
    pub(crate) low: usize,
    pub(crate) count: usize,
    pub(crate) places: Vec<usize>,
}

/// The bounds of the pieces of a text from a place on, each of so many bytes or a few more.
pub(crate) fn piece_bounds(
    alloc: Global,
    text: &[u8],
    begin: usize,
    bytes: usize,
) -> Result<Vec<usize>, AllocError>
    requires within { begin ≤ length text.now }
    requires bytes { 0 < bytes }
    ensures { IfOk result (λ v. AreBounds text.now begin (length text.now) v.items) }
{
    let mut bounds = Vec::new(alloc);
    bounds.push(begin)?;
    let mut low = begin;
    while low < text.len() {
        let end = piece_end(text, low, bytes);
        bounds.push(end)?;
        low = end;
    }
    Ok(bounds)
}

/// Looks over the rows of a piece of a text, by its number, and notes the place of every so many of
/// them. Where it has a quote, it answers as for want of memory.
fn check_piece(
    alloc: Global,
    text: &[u8],
    bounds: &[usize],
    n: usize,
    fields: &[Field],
    layout: &Option<Layout>,
    file: usize,
    grain: usize,
) -> Result<PieceRows, CsvError>
    requires small { length text.now ≤ MOST_FILE_BYTES }
    requires number { n + 1 < length bounds.now }
    requires part { IsPart text.now (get_or bounds.now n 0) (get_or bounds.now (n + 1) 0) }
    requires grain { 0 < grain }
    requires fit { FitsAny fields.now layout.now }
    ensures { IfOk result
        (λ piece. IsPieceAt layout.now fields.now text.now bounds.now grain n piece) }
{
    let low = bounds[n];
    let piece = &text[low..bounds[n + 1]];
    if has_quote(piece) {
        return Err(CsvError::Memory);
    }
    match check_laid_rows(alloc, piece, 0, fields, layout, file, usize::MAX, grain) {
        Ok((count, places)) => Ok(PieceRows { low, count, places }),
        Err(error) => Err(error),
    }
}

/// Places for so many pieces, in each of which a want of memory stands until its piece is looked over.
fn piece_places(alloc: Global, count: usize) -> Result<Vec<Result<PieceRows, CsvError>>, AllocError>
    ensures { IfOk result (λ v. length v.items ≡ count) }
{
    let mut places = Vec::with_capacity(alloc, count)?;
    for _place in 0..count {
        places.push_reserved(Err(CsvError::Memory));
    }
    Ok(places)
}

/// Looks over a piece of a text, by its number, into its place.
fn check_into(
    alloc: Global,
    text: &[u8],
    bounds: &[usize],
    n: usize,
    fields: &[Field],
    layout: &Option<Layout>,
    file: usize,
    grain: usize,
    place: &mut Result<PieceRows, CsvError>,
)
    requires small { length text.now ≤ MOST_FILE_BYTES }
    requires number { n + 1 < length bounds.now }
    requires part { IsPart text.now (get_or bounds.now n 0) (get_or bounds.now (n + 1) 0) }
    requires grain { 0 < grain }
    requires fit { FitsAny fields.now layout.now }
    ensures { IfOk place.new
        (λ piece. IsPieceAt layout.now fields.now text.now bounds.now grain n piece) }
{
    *place = check_piece(alloc, text, bounds, n, fields, layout, file, grain);
}

/// Looks over the pieces of a text into their places, each in a thread of its own.
fn check_places<H: Threads + Sync>(
    rt: &H,
    alloc: Global,
    text: &[u8],
    bounds: &[usize],
    fields: &[Field],
    layout: &Option<Layout>,
    file: usize,
    grain: usize,
    places: &mut [Result<PieceRows, CsvError>],
)
    requires small { length text.now ≤ MOST_FILE_BYTES }
    requires many { length places.old + 1 ≡ length bounds.now }
    requires parts { AreParts text.now bounds.now }
    requires grain { 0 < grain }
    requires fit { FitsAny fields.now layout.now }
    ensures many { length places.new ≡ length places.old }
    ensures each { (n : ℕ) (d : Result PieceRows CsvError)
        → n < length places.old → IfOk (get_or places.new n d)
        (λ piece. IsPieceAt layout.now fields.now text.now bounds.now grain n piece) }
{
    let threads = places.len();
    for_each_beside(
        rt,
        places,
        threads,
        &|n, place| { check_into(alloc, text, bounds, n, fields, layout, file, grain, place) },
    );
}

/// Looks over the pieces of a text, each in a thread of its own.
pub(crate) fn check_each<H: Threads + Sync>(
    rt: &H,
    alloc: Global,
    text: &[u8],
    bounds: &[usize],
    fields: &[Field],
    layout: &Option<Layout>,
    file: usize,
    grain: usize,
) -> Result<Vec<Result<PieceRows, CsvError>>, AllocError>
    requires small { length text.now ≤ MOST_FILE_BYTES }
    requires some { 0 < length bounds.now }
    requires parts { AreParts text.now bounds.now }
    requires grain { 0 < grain }
    requires fit { FitsAny fields.now layout.now }
    ensures many { IfOk result (λ pieces. length pieces.items + 1 ≡ length bounds.now) }
    ensures each { IfOk result (λ pieces. (n : ℕ) (d : Result PieceRows CsvError)
        → n < length pieces.items → IfOk (get_or pieces.items n d)
        (λ piece. IsPieceAt layout.now fields.now text.now bounds.now grain n piece)) }
{
    let mut places = piece_places(alloc, bounds.len() - 1)?;
    check_places(
        rt,
        alloc,
        text,
        bounds,
        fields,
        layout,
        file,
        grain,
        places.as_mut_slice(),
    );
    Ok(places)
}
