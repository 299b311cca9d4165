//! Rows in the order of their keys.

ghost use Rattle.std.specs.Prelude.{◌≡◌, IfOk};
ghost use Rattle.std.specs.List.{range_with_len};
ghost use Rattle.pipe_columns.specs.declared.any_value.AnyValue.{AnyValue};
ghost use Rattle.pipe_columns.specs.AnyValue.{value_cmp};
ghost use Rattle.pipe_columns.specs.Frame.{row_at, value_at};
ghost use Rattle.pipe_model.specs.Answer.{tuple_cmp};
ghost use Rattle.lavzimo_rows.specs.StableOrder.{in_order};

use pipe_columns::{AnyValue, Column};
use std::alloc::{AllocError, Global};
use std::cmp::Ordering;

/// Values are compared in a program as the definition orders them.
fn value_order()
    ensures { (a b : AnyValue) → ⟦<AnyValue as Ord>⟧.cmp a b ≡ value_cmp a b }
{}

/// Compares the values at two places; past the end there are nulls.
#[inline(always)]
fn compare_values(values: &[AnyValue], a: usize, b: usize) -> Ordering
    ensures { result ≡ value_cmp (value_at values.now a) (value_at values.now b) }
{
    value_order();
    let null = AnyValue::Null;
    let first = values.get(a).unwrap_or(&null);
    let second = values.get(b).unwrap_or(&null);
    first.cmp(second)
}

/// Compares the rows of columns at two places, column by column.
#[inline(always)]
fn compare_rows(columns: &[Column], a: usize, b: usize) -> Ordering
    ensures { result ≡ tuple_cmp (row_at columns.now a) (row_at columns.now b) }
{
    for column in columns {
        let order = compare_values(column.values(), a, b);
        if order != Ordering::Equal {
            return order;
        }
    }
    Ordering::Equal
}

/// The numbers of so many rows.
pub(crate) fn all_rows(alloc: Global, height: usize) -> Result<Vec<usize>, AllocError>
    ensures { IfOk result (λ v. v.items ≡ range_with_len 0 height) }
{
    let mut rows = Vec::with_capacity(alloc, height)?;
    for row in 0..height {
        rows.push(row)?;
    }
    Ok(rows)
}

/// The numbers of so many rows, in the order of the rows of key columns.
pub(crate) fn rows_by_key(
    alloc: Global,
    keys: &[Column],
    height: usize,
) -> Result<Vec<usize>, AllocError>
    ensures { IfOk result (λ v. v.items
        ≡ in_order (λ a b. tuple_cmp (row_at keys.now a) (row_at keys.now b))
        (range_with_len 0 height)) }
{
    let mut rows = all_rows(alloc, height)?;
    rows.sort_by(|a, b| compare_rows(keys, *a, *b))?;
    Ok(rows)
}
