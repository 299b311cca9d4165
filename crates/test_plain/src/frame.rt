//! The frame of the plain program.

ghost use Rattle.std.specs.Prelude.{◌≡◌, ◌∷◌, ◌++◌, IfOk, OnOk, map, true, false};
ghost use Rattle.pipe_columns.specs.Frame.{all_fit, frame_of, value_at};
ghost use Rattle.pipe_running.specs.States.{output_values};
ghost use Rattle.test_plain.specs.Fits.{RowsFit};
ghost use Rattle.test_plain.specs.Running.{group_seen, output_row as row_given};

use crate::groups::Group;
use pipe_aggs::{AggregateFn, Finalized};
use pipe_columns::{AnyValue, Column, DataFrame, Field};
use std::alloc::{AllocError, Global};

/// Puts what an aggregate gives at the end of a row.
fn push_outputs(row: &mut Vec<AnyValue>, outputs: Finalized) -> Result<(), AllocError>
    ensures { OnOk result (row.new.items ≡ row.old.items ++ output_values outputs) }
{
    match outputs {
        Finalized::One(value) => row.push(value)?,
        Finalized::Pair(first, second) => {
            row.push(first)?;
            row.push(second)?;
        }
    }
    Ok(())
}

/// The row that a group gives.
fn output_row(group: Group) -> Result<Vec<AnyValue>, AllocError>
    ensures { IfOk result (λ row. row.items ≡ row_given (group_seen group)) }
{
    let Group {
        key: mut row,
        mut states,
        ..
    } = group;
    for j in 0..states.len() {
        push_outputs(&mut row, states[j].finalize())?;
    }
    Ok(row)
}

/// The rows that groups give.
pub fn output_rows(alloc: Global, table: Vec<Group>) -> Result<Vec<Vec<AnyValue>>, AllocError>
    ensures { IfOk result (λ rows. map (λ row. row.items) rows.items
        ≡ map row_given (map group_seen table.items)) }
{
    let mut rows = Vec::new(alloc);
    for group in table {
        rows.push(output_row(group)?)?;
    }
    Ok(rows)
}

/// The value at a place of a row, null past its end.
fn own_value(alloc: Global, row: &[AnyValue], place: usize) -> Result<AnyValue, AllocError>
    ensures { IfOk result (λ v. v ≡ value_at row.now place) }
{
    match row.get(place) {
        Some(value) => value.try_clone(alloc),
        None => Ok(AnyValue::Null),
    }
}

/// The column of a field, from the values at a place of the rows.
fn output_column(
    alloc: Global,
    field: &Field,
    rows: &[Vec<AnyValue>],
    place: usize,
) -> Result<Column, AllocError>
    requires { all_fit field.now.dtype (map (λ row. value_at row.items place) rows.now) ≡ true }
    ensures { IfOk result (λ c. c ≡ record {
      name = field.now.name;
      dtype = field.now.dtype;
      sorted = false;
      values = map (λ row. value_at row.items place) rows.now;
    }) }
{
    let mut values = Vec::new(alloc);
    for row in rows {
        values.push(own_value(alloc, row, place)?)?;
    }
    let name = field.name.try_clone(alloc)?;
    Ok(Column::new(name, field.dtype, false, values).unwrap())
}

/// The frame of rows that fit the fields.
pub fn output_frame(
    alloc: Global,
    fields: &[Field],
    rows: &[Vec<AnyValue>],
) -> Result<DataFrame, AllocError>
    requires { RowsFit fields.now (map (λ row. row.items) rows.now) }
    ensures { IfOk result (λ f. f ≡ frame_of fields.now (map (λ row. row.items) rows.now)) }
{
    let mut columns = Vec::new(alloc);
    for place in 0..fields.len() {
        columns.push(output_column(alloc, &fields[place], rows, place)?)?;
    }
    Ok(DataFrame::new(rows.len(), columns).unwrap())
}
