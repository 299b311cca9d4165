//! The values of lists in one row.

ghost use Rattle.std.specs.Prelude.{◌≡◌, IfOk};
ghost use Rattle.pipe_columns.specs.AnyValue.{value_cmp};
ghost use Rattle.pipe_columns.specs.Frame.{value_at};
ghost use Rattle.pipe_columns.specs.declared.any_value.AnyValue.TheVariants as av;
ghost use Rattle.pipe_exprs.specs.Evaluated.{items_of};
ghost use Rattle.pipe_model.specs.Answer.{tuple_cmp};
ghost use Rattle.pipe_inputs.specs.Cells.{cells};

use pipe_aggs::ColumnValues;
use pipe_columns::AnyValue;
use std::alloc::{AllocError, Global};
use std::cmp::Ordering;

/// The value of list i in a row, lent: a null where there is none.
pub(crate) fn cell<'s>(
    lists: &'s [ColumnValues<'_>],
    row: usize,
    i: usize,
    null: &'s AnyValue,
) -> &'s AnyValue
    requires { null.now ≡ av.Null }
    ensures { result.now ≡ value_at (cells lists.now row) i }
{
    match lists.get(i) {
        Some(values) => match values.at(row) {
            Some(value) => value,
            None => null,
        },
        None => null,
    }
}

/// The order of the value in a row and another value.
fn compare_cell(values: &ColumnValues<'_>, row: usize, value: &AnyValue) -> Ordering
    ensures { result ≡ value_cmp (value_at (items_of values.now) row) value.now }
{
    match (values.at(row), value) {
        (Some(AnyValue::Int(own)), AnyValue::Int(other)) => own.cmp(other),
        (Some(own), _) => own.cmp(value),
        (None, _) => AnyValue::Null.cmp(value),
    }
}

/// The order of the values in a row and other values.
pub(crate) fn compare_cells(lists: &[ColumnValues<'_>], row: usize, other: &[AnyValue]) -> Ordering
    ensures { result ≡ tuple_cmp (cells lists.now row) other.now }
{
    for i in 0..lists.len() {
        if i >= other.len() {
            return Ordering::Greater;
        }
        let order = compare_cell(&lists[i], row, &other[i]);
        if order != Ordering::Equal {
            return order;
        }
    }
    if lists.len() < other.len() {
        Ordering::Less
    } else {
        Ordering::Equal
    }
}

/// A value of its own for a row, null past the last.
fn own_cell(alloc: Global, values: &ColumnValues<'_>, row: usize) -> Result<AnyValue, AllocError>
    ensures { IfOk result (λ v. v ≡ value_at (items_of values.now) row) }
{
    match values.at(row) {
        Some(own) => own.try_clone(alloc),
        None => Ok(AnyValue::Null),
    }
}

/// The values in a row, each of its own.
pub(crate) fn own_cells(
    alloc: Global,
    lists: &[ColumnValues<'_>],
    row: usize,
) -> Result<Vec<AnyValue>, AllocError>
    ensures { IfOk result (λ own. own.items ≡ cells lists.now row) }
{
    let mut own = Vec::with_capacity(alloc, lists.len())?;
    for values in lists {
        own.push(own_cell(alloc, values, row)?)?;
    }
    Ok(own)
}
