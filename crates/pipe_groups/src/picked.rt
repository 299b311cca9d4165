//! Frames of rows of others.

ghost use Rattle.std.specs.Prelude.{◌≡◌, IfOk, length, map};
ghost use Rattle.pipe_columns.specs.Frame.{value_at};
ghost use Rattle.pipe_groups.specs.PlacedRanks.{picked as picked_from};

use pipe_columns::{AnyValue, Column, DataFrame};
use std::alloc::{AllocError, Global};

/// The value of a row, null past the last.
fn own_value(alloc: Global, values: &[AnyValue], row: usize) -> Result<AnyValue, AllocError>
    ensures { IfOk result (λ v. v ≡ value_at values.now row) }
{
    match values.get(row) {
        Some(value) => value.try_clone(alloc),
        None => Ok(AnyValue::Null),
    }
}

/// A column of some rows of another, in turn.
fn picked_column(alloc: Global, column: &Column, rows: &[usize]) -> Result<Column, AllocError>
    ensures { IfOk result (λ c. c ≡ picked_from rows.now column.now) }
{
    let all = column.values();
    let mut values = Vec::with_capacity(alloc, rows.len())?;
    for row in rows {
        values.push(own_value(alloc, all, *row)?)?;
    }
    let name = column.name().try_clone(alloc)?;
    Ok(Column::new(name, column.dtype(), false, values).unwrap())
}

/// The frame of some rows of another, in turn.
pub(crate) fn picked(
    alloc: Global,
    frame: &DataFrame,
    rows: &[usize],
) -> Result<DataFrame, AllocError>
    ensures { IfOk result (λ f. f ≡ record {
      height = length rows.now;
      columns = map (picked_from rows.now) frame.now.columns;
    }) }
{
    let all = frame.columns();
    let mut columns = Vec::with_capacity(alloc, all.len())?;
    for column in all {
        columns.push(picked_column(alloc, column, rows)?)?;
    }
    Ok(DataFrame::new(rows.len(), columns).unwrap())
}
