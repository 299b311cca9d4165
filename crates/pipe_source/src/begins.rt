//! Where the rows of the text of a file begin, whose columns stand in order or are found by their names.

ghost use Rattle.std.specs.Prelude.{◌≤◌, ℕ, IfErr, IfOk, Option, length};
ghost use Rattle.pipe_csv.specs.CsvError.{StopsBy};
ghost use Rattle.pipe_io.specs.declared.whole_file.TheConstants.{MOST_FILE_BYTES};
ghost use Rattle.pipe_source.specs.ByName.{text_rows_by};
ghost use Rattle.pipe_source.specs.Layout.{LayoutFits};
ghost use Rattle.pipe_source.specs.Rows.{HasRowsBy};

use crate::layout::Layout;
use crate::named_begin::find_named_begin;
use crate::ordered_begin::find_begin;
use pipe_columns::Field;
use pipe_csv::CsvError;
use std::alloc::Global;

/// Where columns stand in the rows of the text of a file, if they are found by their names, and where the
/// rows begin, behind its header.
pub(crate) fn find_begin_by(
    alloc: Global,
    text: &[u8],
    columns: &[Field],
    file: usize,
    by_name: bool,
) -> Result<(Option<Layout>, usize), CsvError>
    requires small { length text.now ≤ MOST_FILE_BYTES }
    ensures rows { IfOk result
        (λ r. HasRowsBy by_name file columns.now text.now r.0 r.1) }
    ensures fit { IfOk result (λ r. LayoutFits columns.now by_name r.0) }
    ensures within { IfOk result (λ r. r.1 ≤ length text.now) }
    ensures stop { IfErr result (λ e. (wanted : Option ℕ)
        → StopsBy e (text_rows_by by_name file wanted columns.now text.now)) }
{
    if by_name {
        return match find_named_begin(alloc, text, columns, file) {
            Ok((begin, layout)) => Ok((Some(layout), begin)),
            Err(error) => Err(error),
        };
    }
    match find_begin(alloc, text, columns, file) {
        Ok(begin) => Ok((None, begin)),
        Err(error) => Err(error),
    }
}
