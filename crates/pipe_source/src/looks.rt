//! Ways in which the first bytes of a file are read and its text is looked over.

ghost use Rattle.std.specs.Prelude.{◌≡◌, ◌≤◌, ◌<◌, [], IfErr, IfOk, IsErrOf, List, Ok, length, take, true, vec_len, ⊤};
ghost use Rattle.std.specs.Thread.{IsSync};
ghost use Rattle.pipe_columns.specs.Causes.{HasCause};
ghost use Rattle.pipe_columns.specs.declared.any_value.AnyValue.{AnyValue};
ghost use Rattle.pipe_csv.specs.CsvError.{StopsBy};
ghost use Rattle.pipe_io.specs.Files.{IsRead};
ghost use Rattle.pipe_io.specs.declared.input.InputError.TheVariants as input_error;
ghost use Rattle.pipe_io.specs.declared.whole_file.TheConstants.{MOST_FILE_BYTES};
ghost use Rattle.pipe_source.specs.ByName.{text_rows_by};
ghost use Rattle.pipe_source.specs.LaidRows.{AreLaidAt};
ghost use Rattle.pipe_source.specs.Layout.{LayoutFits};
ghost use Rattle.pipe_source.specs.Rows.{AreStarts};

use crate::layout::Layout;
use crate::look_over::look_over;
use crate::piece_rows::{PieceSizes, look_over_pieces};
use crate::room::read_front_beside;
use pipe_columns::{Field, Text};
use pipe_csv::CsvError;
use pipe_io::{InputError, InputFiles};
use pipe_scan::has_quote;
use std::alloc::Global;
use std::thread::Threads;

/// A text of fewer bytes isn't worth threads.
pub(crate) const FEWEST_BYTES: usize = 1 << 20;

/// Reads the first bytes of a file, and looks over its text.
pub(crate) trait Looks {
    /// What it rests on.
    ghost ready: { Type 0 };

    /// Room for the text of the begun file, which is that of a name and has about so many bytes, and
    /// how many of them were read to the front of it, where that is worth a call of its own.
    fn read_front<I: InputFiles>(
        &self,
        alloc: Global,
        input: &mut I,
        name: &Text,
        bytes: usize,
    ) -> Result<(Vec<u8>, usize), InputError>
        requires ready { ready }
        requires started { I.begun input.old ≡ true }
        requires at_start { IsRead (I.told input.old) name.now (I.left input.old) [] }
        requires some { 0 < bytes }
        ensures told { I.told input.new ≡ I.told input.old }
        ensures begun { I.begun input.new ≡ true }
        ensures within { IfOk result (λ r. r.1 ≤ vec_len r.0) }
        ensures read { IfOk result (λ r.
            IsRead (I.told input.old) name.now (I.left input.new) (take r.1 r.0.items)) }
        ensures found { IsErrOf result input_error.NoFile → ⊥ }
        ensures tried { I.tried input.new ≡ I.tried input.old }
        ensures cause { HasCause (I.faults input.old) (I.faults input.new)
            (IsErrOf result input_error.Failed) };

    /// Where columns stand in the text of a file, if they are found by their names, where its wanted
    /// rows begin, how many there are, and where each chunk of a size begins, or the first misfit.
    fn look(
        &self,
        alloc: Global,
        text: &[u8],
        fields: &[Field],
        file: usize,
        by_name: bool,
        wanted: Option<usize>,
        size: usize,
    ) -> Result<(Option<Layout>, usize, usize, Vec<usize>), CsvError>
        requires ready { ready }
        requires small { length text.now ≤ MOST_FILE_BYTES }
        requires size { 0 < size }
        ensures rows { IfOk result (λ r. (rows : List (List AnyValue))
            × (text_rows_by by_name file wanted fields.now text.now ≡ Ok rows)
            × AreLaidAt r.0 fields.now text.now r.1 r.2 rows) }
        ensures fit { IfOk result (λ r. LayoutFits fields.now by_name r.0) }
        ensures starts { IfOk result (λ r. AreStarts text.now r.1 size r.2 r.3.items) }
        ensures few { IfOk result (λ r. r.2 ≤ MOST_FILE_BYTES) }
        ensures stop { IfErr result
            (λ e. StopsBy e (text_rows_by by_name file wanted fields.now text.now)) };
}

/// The caller's thread reads and looks over a text alone.
#[derive(Clone, Copy, Drop)]
pub(crate) struct Alone;

impl Looks for Alone {
    ghost ready = { ⊤ };

    fn read_front<I: InputFiles>(
        &self,
        alloc: Global,
        _input: &mut I,
        _name: &Text,
        _bytes: usize,
    ) -> Result<(Vec<u8>, usize), InputError> {
        Ok((Vec::new(alloc), 0))
    }

    fn look(
        &self,
        alloc: Global,
        text: &[u8],
        fields: &[Field],
        file: usize,
        by_name: bool,
        wanted: Option<usize>,
        size: usize,
    ) -> Result<(Option<Layout>, usize, usize, Vec<usize>), CsvError> {
        look_over(alloc, text, fields, file, by_name, wanted, size)
    }
}

/// So many threads read a file that has no fewer bytes than that, in parts, and look over pieces of its
/// text, where its front has no quote and all its rows are wanted. Where a row doesn't fit or a piece
/// has a quote, the caller's thread looks over the text again, alone.
#[derive(Drop)]
pub(crate) struct SideBySide<'a, H: Threads + Sync> {
    pub(crate) rt: &'a H,
    pub(crate) threads: usize,
    pub(crate) fewest: usize,
}

impl<H: Threads + Sync> Looks for SideBySide<'_, H> {
    ghost ready = { IsSync H.row };

    fn read_front<I: InputFiles>(
        &self,
        alloc: Global,
        input: &mut I,
        name: &Text,
        bytes: usize,
    ) -> Result<(Vec<u8>, usize), InputError> {
        if self.threads > 1 && bytes >= self.fewest {
            return read_front_beside(self.rt, alloc, input, name, bytes, self.threads);
        }
        Ok((Vec::new(alloc), 0))
    }

    fn look(
        &self,
        alloc: Global,
        text: &[u8],
        fields: &[Field],
        file: usize,
        by_name: bool,
        wanted: Option<usize>,
        size: usize,
    ) -> Result<(Option<Layout>, usize, usize, Vec<usize>), CsvError> {
        let is_large = self.threads > 1 && text.len() >= self.fewest;
        let front = &text[..text.len().min(FEWEST_BYTES)];
        if is_large && wanted.is_none() && !has_quote(front) {
            let sizes = PieceSizes::new(text.len(), self.threads, size);
            let found = look_over_pieces(self.rt, alloc, text, fields, file, by_name, size, sizes);
            if let Ok(found) = found {
                return Ok(found);
            }
        }
        look_over(alloc, text, fields, file, by_name, wanted, size)
    }
}
