//! Frames below one another.

ghost use Rattle.std.specs.Prelude.{◌≡◌, IfOk, OnErr, OnOk, map};
ghost use Rattle.pipe_columns.specs.Frame.{fields_of, stacked, unsorted};

use pipe_columns::{AnyValue, Column, DataFrame};
use std::alloc::{AllocError, Global};

/// Puts a frame below another of its columns. Where there are more rows than a number counts, memory
/// is wanting.
pub(crate) fn put_below(frame: &mut DataFrame, other: DataFrame) -> Result<(), AllocError>
    requires { fields_of other.columns ≡ fields_of frame.old.columns }
    ensures ok { OnOk result (frame.new ≡ stacked frame.old other) }
    ensures err { OnErr result (frame.new ≡ frame.old) }
{
    let Some(_) = frame.height().checked_add(other.height()) else {
        return Err(AllocError);
    };
    frame.vstack(other)
}

/// Copies of values.
fn copied_values(alloc: Global, values: &[AnyValue]) -> Result<Vec<AnyValue>, AllocError>
    ensures { IfOk result (λ v. v.items ≡ values.now) }
{
    let mut copies = Vec::with_capacity(alloc, values.len())?;
    for value in values {
        copies.push(value.try_clone(alloc)?)?;
    }
    Ok(copies)
}

/// A copy of a column, without its flag.
fn copied_column(alloc: Global, column: &Column) -> Result<Column, AllocError>
    ensures { IfOk result (λ c. c ≡ unsorted column.now) }
{
    let values = copied_values(alloc, column.values())?;
    let name = column.name().try_clone(alloc)?;
    Ok(Column::new(name, column.dtype(), false, values).unwrap())
}

/// A copy of a frame, without flags.
pub(crate) fn copied(alloc: Global, frame: &DataFrame) -> Result<DataFrame, AllocError>
    ensures { IfOk result (λ f. f ≡ record {
      height = frame.now.height;
      columns = map unsorted frame.now.columns;
    }) }
{
    let all = frame.columns();
    let mut columns = Vec::with_capacity(alloc, all.len())?;
    for column in all {
        columns.push(copied_column(alloc, column)?)?;
    }
    Ok(DataFrame::new(frame.height(), columns).unwrap())
}
