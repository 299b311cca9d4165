//! The text of a file that is looked over before any row of it is given, with its columns by their names
//! or in order.

ghost use Rattle.std.specs.Prelude.{◌≡◌, ◌≤◌, ◌<◌, IfErr, IfOk, List, Ok, length};
ghost use Rattle.pipe_columns.specs.declared.any_value.AnyValue.{AnyValue};
ghost use Rattle.pipe_csv.specs.CsvError.{StopsBy};
ghost use Rattle.pipe_io.specs.declared.whole_file.TheConstants.{MOST_FILE_BYTES};
ghost use Rattle.pipe_source.specs.ByName.{text_rows_by};
ghost use Rattle.pipe_source.specs.LaidRows.{AreLaidAt};
ghost use Rattle.pipe_source.specs.Layout.{LayoutFits};
ghost use Rattle.pipe_source.specs.Rows.{AreStarts};

use crate::begins::find_begin_by;
use crate::laid_check::check_laid_rows;
use crate::layout::Layout;
use pipe_columns::Field;
use pipe_csv::CsvError;
use std::alloc::Global;

/// Where columns stand in the text of a file, if they are found by their names, where its wanted rows
/// begin, how many there are, and where each chunk of a size begins, or the first misfit. No value is
/// made.
pub(crate) fn look_over(
    alloc: Global,
    text: &[u8],
    columns: &[Field],
    file: usize,
    by_name: bool,
    wanted: Option<usize>,
    size: usize,
) -> Result<(Option<Layout>, usize, usize, Vec<usize>), CsvError>
    requires small { length text.now ≤ MOST_FILE_BYTES }
    requires size { 0 < size }
    ensures rows { IfOk result (λ r. (rows : List (List AnyValue))
        × (text_rows_by by_name file wanted columns.now text.now ≡ Ok rows)
        × AreLaidAt r.0 columns.now text.now r.1 r.2 rows) }
    ensures fit { IfOk result (λ r. LayoutFits columns.now by_name r.0) }
    ensures starts { IfOk result (λ r. AreStarts text.now r.1 size r.2 r.3.items) }
    ensures few { IfOk result (λ r. r.2 ≤ MOST_FILE_BYTES) }
    ensures stop { IfErr result
        (λ e. StopsBy e (text_rows_by by_name file wanted columns.now text.now)) }
{
    let (layout, begin) = match find_begin_by(alloc, text, columns, file, by_name) {
        Ok(found) => found,
        Err(error) => return Err(error),
    };
    let most = wanted.unwrap_or(usize::MAX);
    match check_laid_rows(alloc, text, begin, columns, &layout, file, most, size) {
        Ok((count, starts)) => Ok((layout, begin, count, starts)),
        Err(error) => Err(error),
    }
}
