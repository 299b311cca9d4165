//! What columns show of rows.

ghost use Rattle.std.specs.Prelude.{◌≡◌, true};
ghost use Rattle.pipe_columns.specs.Frame.{row_at, value_at};
ghost use Rattle.lavzimo_rows.specs.Cells.{IsCell, value_lent};
ghost use Rattle.lavzimo_rows.specs.Columns.{is_mean, shown_value};
ghost use Rattle.lavzimo_rows.specs.Mean.{mean_value};

use crate::columns::Shows;
use crate::mean::{Millionths, mean_micros};
use pipe_columns::{AnyValue, Column};

/// What a column shows of a row.
#[derive(Clone, Copy)]
pub(crate) enum Cell<'a> {
    Nothing,
    Value(&'a AnyValue),
    Mean(Millionths),
}

/// The value of a column at a row, where there is one.
#[inline(always)]
fn value_in(columns: &[Column], column: usize, row: usize) -> Option<&AnyValue>
    ensures { value_lent result ≡ value_at (row_at columns.now row) column }
{
    columns.get(column)?.values().get(row)
}

/// The mean of an exact sum and a count, where they have one.
#[inline(always)]
fn mean_of<'a>(sum: Option<&AnyValue>, count: Option<&AnyValue>) -> Cell<'a>
    ensures { IsCell true (mean_value (value_lent sum.entry) (value_lent count.entry)) result }
{
    let (Some(AnyValue::Int(sum)), Some(AnyValue::Int(count))) = (sum, count) else {
        return Cell::Nothing;
    };
    match u32::try_from(*count) {
        Ok(count) if 0 < count => Cell::Mean(mean_micros(*sum, count)),
        _ => Cell::Nothing,
    }
}

/// What a column shows of the row at a place.
#[inline(always)]
pub(crate) fn cell_at(columns: &[Column], shows: Shows, row: usize) -> Cell<'_>
    ensures { IsCell (is_mean shows) (shown_value shows (row_at columns.now row)) result }
{
    match shows {
        Shows::Value(column) => match value_in(columns, column, row) {
            Some(value) => Cell::Value(value),
            None => Cell::Nothing,
        },
        Shows::Mean(of) => mean_of(
            value_in(columns, of.sum, row),
            value_in(columns, of.count, row),
        ),
    }
}
