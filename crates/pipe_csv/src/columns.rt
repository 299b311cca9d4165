//! Columns of values.

ghost use Rattle.std.specs.Prelude.{◌≡◌, IfOk};
ghost use Rattle.std.specs.Ordering.{is_lt};
ghost use Rattle.pipe_columns.specs.AnyValue.{value_cmp};
ghost use Rattle.pipe_columns.specs.Frame.{AreOfType};
ghost use Rattle.pipe_csv.specs.Columns.{column_of};
ghost use Rattle.pipe_csv.specs.CsvRows.{is_ascending};

use pipe_columns::{AnyValue, Column, Field};
use std::alloc::{AllocError, Global};

/// Whether a value is less than another.
fn is_less(a: &AnyValue, b: &AnyValue) -> bool
    ensures { result ≡ is_lt (value_cmp a.now b.now) }
{
    a < b
}

/// Whether no value is less than the one before it.
fn is_ascending(values: &[AnyValue]) -> bool
    ensures { result ≡ is_ascending values.now }
{
    for i in 1..values.len() {
        if is_less(&values[i], &values[i - 1]) {
            return false;
        }
    }
    true
}

/// A column of a field, marked as sorted where its values ascend.
pub fn make_column(
    alloc: Global,
    field: &Field,
    values: Vec<AnyValue>,
) -> Result<Column, AllocError>
    requires { AreOfType field.now.dtype values.items }
    ensures { IfOk result (λ c. c ≡ column_of field.now values.items) }
{
    let name = field.name.try_clone(alloc)?;
    let sorted = is_ascending(&values);
    Ok(Column::of_type(name, field.dtype, sorted, values))
}
