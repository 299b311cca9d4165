//! Where the rows of a text begin whose columns are found by their names.

ghost use Rattle.std.specs.Prelude.{◌≡◌, ◌≤◌, ℕ, IfErr, IfOk, Option, Some, length};
ghost use Rattle.pipe_csv.specs.CsvError.{StopsBy};
ghost use Rattle.pipe_io.specs.declared.whole_file.TheConstants.{MOST_FILE_BYTES};
ghost use Rattle.pipe_source.specs.Layout.{FitsLayout};
ghost use Rattle.pipe_source.specs.LaidRows.{HasNamedRowsFrom};
ghost use Rattle.pipe_source.specs.NamedRows.{named_text_rows};

use crate::layout::{Layout, find_layout};
use csv::ByteRecord;
use pipe_columns::Field;
use pipe_csv::CsvError;
use pipe_scan::{read_record, text_start};
use std::alloc::Global;

/// Where columns stand in the rows of the text of a file, and where the rows begin, behind its header.
pub(crate) fn find_named_begin(
    alloc: Global,
    text: &[u8],
    columns: &[Field],
    file: usize,
) -> Result<(usize, Layout), CsvError>
    requires small { length text.now ≤ MOST_FILE_BYTES }
    ensures rows { IfOk result
        (λ r. HasNamedRowsFrom file columns.now text.now r.1 r.0) }
    ensures fit { IfOk result (λ r. FitsLayout columns.now r.1) }
    ensures within { IfOk result (λ r. r.0 ≤ length text.now) }
    ensures stop { IfErr result
        (λ e. (wanted : Option ℕ) → StopsBy e (named_text_rows file wanted columns.now text.now)) }
{
    let start = text_start(text);
    let mut names = ByteRecord::new(alloc);
    let mut bytes = Vec::new(alloc);
    let Some(begin) = read_record(text, start, &mut names, &mut bytes)? else {
        return Err(CsvError::Header { file });
    };
    match find_layout(alloc, columns, &names, file) {
        Ok(layout) => Ok((begin, layout)),
        Err(error) => Err(error),
    }
}
