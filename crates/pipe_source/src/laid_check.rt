//! Rows of a text that are looked over, in the order of the columns or by their places.

ghost use Rattle.std.specs.Prelude.{◌≡◌, ◌≤◌, ◌<◌, IfErr, IfOk, List, Ok, length, take};
ghost use Rattle.pipe_columns.specs.declared.any_value.AnyValue.{AnyValue};
ghost use Rattle.pipe_csv.specs.CsvRows.{read_rows};
ghost use Rattle.pipe_csv.specs.CsvError.{StopsBy};
ghost use Rattle.pipe_scan.specs.Records.{records_at};
ghost use Rattle.pipe_source.specs.Layout.{FitsAny, laid};
ghost use Rattle.pipe_source.specs.Rows.{AreStarts};

use crate::layout::Layout;
use crate::named_check::check_named_rows;
use crate::row_check::check_rows;
use pipe_columns::Field;
use pipe_csv::CsvError;
use std::alloc::Global;

/// How many fields a row has.
pub(crate) fn row_width(columns: &[Field], layout: &Option<Layout>) -> usize {
    match layout {
        Some(layout) => layout.count,
        None => columns.len(),
    }
}

/// Looks over the columns of the rows of a text from a place on, so many at most, and tells how many
/// there are, and where each chunk of a size begins.
pub(crate) fn check_laid_rows(
    alloc: Global,
    text: &[u8],
    at: usize,
    columns: &[Field],
    layout: &Option<Layout>,
    file: usize,
    most: usize,
    size: usize,
) -> Result<(usize, Vec<usize>), CsvError>
    requires within { at ≤ length text.now }
    requires size { 0 < size }
    requires fit { FitsAny columns.now layout.now }
    ensures reads { IfOk result (λ r. (rows : List (List AnyValue))
        × (read_rows file 1 columns.now
        (take most (laid layout.now (records_at text.now at))) ≡ Ok rows)
        × (length rows ≡ r.0)) }
    ensures starts { IfOk result (λ r. AreStarts text.now at size r.0 r.1.items) }
    ensures stop { IfErr result (λ e. StopsBy e (read_rows file 1 columns.now
        (take most (laid layout.now (records_at text.now at))))) }
{
    match layout {
        Some(layout) => check_named_rows(alloc, text, at, columns, layout, file, most, size),
        None => check_rows(alloc, text, at, columns, file, most, size),
    }
}
