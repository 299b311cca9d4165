//! Rows of a text that were looked over, whose wanted values go to the ends of columns.

ghost use Rattle.std.specs.Prelude.{◌≡◌, [], IfErr, IfOk, List, length, replicate, vec_len};
ghost use Rattle.pipe_columns.specs.declared.any_value.AnyValue.{AnyValue};
ghost use Rattle.pipe_csv.specs.Columns.{DoHold, values_from};
ghost use Rattle.pipe_csv.specs.declared.csv_error.CsvError.TheVariants as csv_error;
ghost use Rattle.narrow_columns.specs.Wanted.{chosen};
ghost use Rattle.pipe_source.specs.LaidRows.{AreLaidAt};
ghost use Rattle.pipe_source.specs.Layout.{IsWholeLayout};

use crate::column_fill::ColumnFill;
use crate::layout::Layout;
use crate::named_push::push_named_rows;
use crate::row_push::push_rows;
use pipe_columns::Field;
use pipe_csv::CsvError;
use std::alloc::Global;

/// Adds the wanted values of so many rows of a text from a place on, which were looked over before. Where
/// there is a layout, its columns are wanted, and all of them.
pub(crate) fn push_laid_rows(
    alloc: Global,
    fills: &mut Vec<ColumnFill>,
    text: &[u8],
    at: usize,
    count: usize,
    fields: &[Field],
    wanted: &[bool],
    layout: &Option<Layout>,
) -> Result<(), CsvError>
    requires empty { fills.old.items ≡ replicate (length (chosen wanted.now fields.now)) [] }
    requires layout { IsWholeLayout fields.now wanted.now layout.now }
    requires rows { (rows : List (List AnyValue))
        × AreLaidAt layout.now fields.now text.now at count rows }
    ensures pushed { (rows : List (List AnyValue))
        → AreLaidAt layout.now fields.now text.now at count rows → IfOk result
        (λ _. fills.new.items ≡ chosen wanted.now (values_from 0 fields.now rows)) }
    ensures hold { IfOk result (λ _. DoHold count (chosen wanted.now fields.now)
        fills.new.items) }
    ensures width { IfOk result
        (λ _. vec_len fills.new ≡ length (chosen wanted.now fields.now)) }
    ensures memory { IfErr result (λ e. e ≡ csv_error.Memory) }
{
    match layout {
        Some(layout) => push_named_rows(alloc, fills, text, at, count, fields, layout),
        None => push_rows(alloc, fills, text, at, count, fields, wanted),
    }
}
