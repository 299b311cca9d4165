//! Files that are read whole, up to the first that has rows.

ghost use Rattle.std.specs.Prelude.{◌≡◌, ◌≤◌, ◌<◌, ◌^◌, ◌↔◌, ◌+◌, ◌++◌, ◌∷◌, [], drop, IfErr, IfOk, IfSome, IsErrOf, length, true};
ghost use Rattle.pipe_columns.specs.Causes.{HasCause};
ghost use Rattle.pipe_csv.specs.declared.csv_error.CsvError.TheVariants as csv_error;
ghost use Rattle.pipe_io.specs.Files.{HasNoFile, IsLarger, IsWhole};
ghost use Rattle.pipe_io.specs.Tried.{AreTried, TriedFront};
ghost use Rattle.pipe_io.specs.declared.whole_file.FileEnd.TheVariants as file_end;
ghost use Rattle.pipe_source.specs.CsvChunks.{is_any_wanted, is_numbered, wanted_after};
ghost use Rattle.pipe_source.specs.Found.{Finds, StopsFrom};
ghost use Rattle.pipe_source.specs.Rows.{IsLoaded, StopsTold};

use crate::file_text::FileText;
use crate::looks::Looks;
use crate::read_options::CsvReadOptions;
use crate::source_place::SourcePlace;
use pipe_columns::{Field, Text};
use pipe_csv::CsvError;
use pipe_io::{FileEnd, InputFiles, MOST_FILE_BYTES, end_of, read_begun};
use std::alloc::Global;

/// How many rows are still wanted after some, where they are limited.
pub(crate) fn wanted_after(limit: Option<usize>, given: u128) -> Option<usize>
    ensures { result ≡ wanted_after limit given }
{
    match limit {
        Some(limit) if given < limit as u128 => Some(limit - given as usize),
        Some(_) => Some(0),
        None => None,
    }
}

/// Whether the numbers of rows, of which so many come before, stay below 2^32.
fn is_numbered(index: &Option<(Text, u32)>, given: u128, count: usize) -> bool
    requires { given ≤ 2 ^ 100 }
    ensures { result ≡ is_numbered index.now given count }
{
    match index {
        Some(index) => u128::from(index.1) + given + count as u128 <= 1 << 32,
        None => true,
    }
}

/// Reads the file of a name whole, the first of its bytes into room for about as many as it has, and
/// for one more, by which its end is seen.
pub(crate) fn read_text<I: InputFiles, L: Looks>(
    looks: &L,
    alloc: Global,
    input: &mut I,
    name: &Text,
) -> Result<Vec<u8>, FileEnd>
    requires { L.ready }
    ensures told { I.told input.new ≡ I.told input.old }
    ensures bytes { IfOk result (λ v. IsWhole (I.told input.old) name.now v.items) }
    ensures small { IfOk result (λ v. length v.items ≤ MOST_FILE_BYTES) }
    ensures missing { IsErrOf result file_end.Missing → HasNoFile (I.told input.old) name.now }
    ensures large { IsErrOf result file_end.TooLarge
        → IsLarger (I.told input.old) name.now MOST_FILE_BYTES }
    ensures tried { I.tried input.new ≡ I.tried input.old ++ name.now ∷ [] }
    ensures cause { HasCause (I.faults input.old) (I.faults input.new)
        (IsErrOf result file_end.Failed) }
{
    if let Err(error) = input.begin(name) {
        return Err(end_of(error));
    }
    let bytes = input.size_hint().min(MOST_FILE_BYTES);
    match looks.read_front(alloc, input, name, bytes + 1) {
        Ok((room, front)) => read_begun(input, name, room, front),
        Err(error) => Err(end_of(error)),
    }
}

/// Reads the file of a name whole, and looks over its wanted rows.
fn load_file<I: InputFiles, L: Looks>(
    looks: &L,
    alloc: Global,
    input: &mut I,
    name: &Text,
    at: SourcePlace,
    fields: &[Field],
    options: &CsvReadOptions,
    by_name: bool,
) -> Result<FileText, CsvError>
    requires ready { L.ready }
    requires few { at.rows ≤ 2 ^ 100 }
    requires size { 0 < options.now.chunk_size }
    ensures told { I.told input.new ≡ I.told input.old }
    ensures loaded { IfOk result
        (λ f. IsLoaded by_name options.now fields.now at (I.told input.old) name.now f) }
    ensures stop { IfErr result
        (λ e. StopsTold e by_name options.now fields.now at (I.told input.old) name.now) }
    ensures tried { I.tried input.new ≡ I.tried input.old ++ name.now ∷ [] }
    ensures cause { HasCause (I.faults input.old) (I.faults input.new)
        (IsErrOf result csv_error.Input) }
{
    let text = match read_text(looks, alloc, input, name) {
        Ok(text) => text,
        Err(FileEnd::Missing) => return Err(CsvError::Missing { file: at.file }),
        Err(FileEnd::Failed) => return Err(CsvError::Input),
        Err(FileEnd::TooLarge) => return Err(CsvError::TooLarge),
        Err(FileEnd::Memory) => return Err(CsvError::Memory),
    };
    let wanted = wanted_after(options.n_rows, at.rows);
    let size = options.chunk_size;
    let file = at.file;
    let looked = looks.look(alloc, &text, fields, file, by_name, wanted, size);
    let (layout, begin, count, starts) = match looked {
        Ok(found) => found,
        Err(error) => return Err(error),
    };
    if !is_numbered(&options.row_index, at.rows, count) {
        return Err(CsvError::TooLarge);
    }
    Ok(FileText {
        layout,
        text,
        begin,
        count,
        starts,
    })
}

/// Reads files from a place on, up to the first that has wanted rows.
pub(crate) fn find_rows<I: InputFiles, L: Looks>(
    looks: &L,
    alloc: Global,
    input: &mut I,
    names: &[Text],
    last: SourcePlace,
    fields: &[Field],
    options: &CsvReadOptions,
    by_name: bool,
) -> Result<Option<(usize, FileText)>, CsvError>
    requires ready { L.ready }
    requires few { last.rows ≤ 2 ^ 100 }
    requires size { 0 < options.now.chunk_size }
    requires wanted { is_any_wanted (wanted_after options.now.n_rows last.rows) ≡ true }
    ensures told { I.told input.new ≡ I.told input.old }
    ensures found { IfOk result (λ o.
        Finds by_name options.now fields.now (I.told input.old) names.now last o) }
    ensures stop { IfErr result (λ e.
        StopsFrom e by_name options.now fields.now (I.told input.old) names.now last) }
    ensures tried { TriedFront (I.tried input.old) (I.tried input.new) (drop last.file names.now) }
    ensures gone { IfOk result (λ o. IfSome o (λ found. AreTried (I.tried input.old)
        (I.tried input.new) (drop last.file names.now) (drop (found.0 + 1) names.now))) }
    ensures cause { HasCause (I.faults input.old) (I.faults input.new)
        (IsErrOf result csv_error.Input) }
{
    for i in last.file..names.len() {
        let at = SourcePlace {
            file: i + 1,
            chunks: last.chunks,
            rows: last.rows,
        };
        match load_file(looks, alloc, input, &names[i], at, fields, options, by_name) {
            Ok(found) => {
                if found.count > 0 {
                    return Ok(Some((i, found)));
                }
            }
            Err(error) => return Err(error),
        }
    }
    Ok(None)
}
