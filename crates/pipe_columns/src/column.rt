//! Columns: values of one type under a name.

ghost use Rattle.std.specs.Prelude.{◌≡◌, ◌↔◌, IfNone, IfSome, IsTrue, OnErr, OnOk, true, false};
ghost use Rattle.std.specs.List.{All};
ghost use Rattle.pipe_columns.specs.AnyValue.{HasUtf8};
ghost use Rattle.pipe_columns.specs.Frame.{AreOfType, all_fit, appended, field_of, sliced_column, truncated, unsorted};

use crate::any_value::AnyValue;
use crate::data_type::DataType;
use crate::schema::Field;
use crate::text::Text;
use std::alloc::AllocError;
use std::marker::Model;

/// A name, a type and values that fit the type. `sorted` is a flag of whoever made it.
#[derive(Drop)]
pub struct Column {
    name: Text,
    dtype: DataType,
    sorted: bool,
    values: Vec<AnyValue>,
}

impl Model for Column {
    ghost use Rattle.pipe_columns.specs.Frame.{AreOfType, ColumnData};

    ghost Value = { ColumnData };

    ghost view = { λ a.
        record { name = a.name; dtype = a.dtype; sorted = a.sorted; values = a.values.items } };

    ghost invariant = { λ a. AreOfType a.dtype a.values.items };
}

/// Whether all values fit a type. The look at each shows that its text is in UTF-8.
#[inline(always)]
fn do_all_fit(values: &[AnyValue], dtype: DataType) -> bool
    ensures fit { result ≡ all_fit dtype values.now }
    ensures utf8 { IsTrue result → All HasUtf8 values.now }
{
    for value in values {
        if !value.fits(dtype) {
            return false;
        }
    }
    true
}

/// Whether all values fit a type. Each type of many values has a loop of its own, which knows it.
fn do_fit(values: &[AnyValue], dtype: DataType) -> bool
    ensures fit { result ≡ all_fit dtype values.now }
    ensures utf8 { IsTrue result → All HasUtf8 values.now }
{
    match dtype {
        DataType::Int64 => do_all_fit(values, DataType::Int64),
        DataType::Int32 => do_all_fit(values, DataType::Int32),
        DataType::UInt64 => do_all_fit(values, DataType::UInt64),
        DataType::UInt32 => do_all_fit(values, DataType::UInt32),
        DataType::String => do_all_fit(values, DataType::String),
        _ => do_all_fit(values, dtype),
    }
}

impl Column {
    /// A column, or none exactly where a value doesn't fit.
    pub fn new(name: Text, dtype: DataType, sorted: bool, values: Vec<AnyValue>) -> Option<Column>
        ensures some { IfSome result (λ c.
            c ≡ record { name = name; dtype = dtype; sorted = sorted; values = values.items }) }
        ensures fits { IfSome result (λ c. all_fit dtype values.items ≡ true) }
        ensures utf8 { IfSome result (λ c. All HasUtf8 values.items) }
        ensures none { IfNone result (all_fit dtype values.items ≡ false) }
    {
        if do_fit(&values, dtype) {
            Some(Column {
                name,
                dtype,
                sorted,
                values,
            })
        } else {
            None
        }
    }

    /// A column of values of its type. It looks at none of them.
    pub fn of_type(name: Text, dtype: DataType, sorted: bool, values: Vec<AnyValue>) -> Column
        requires { AreOfType dtype values.items }
        ensures { result
            ≡ record { name = name; dtype = dtype; sorted = sorted; values = values.items } }
    {
        Column {
            name,
            dtype,
            sorted,
            values,
        }
    }

    pub fn name(&self) -> &Text
        ensures { result.now ≡ self.now.name }
    {
        &self.name
    }

    pub fn dtype(&self) -> DataType
        ensures { result ≡ self.now.dtype }
    {
        self.dtype
    }

    pub fn sorted(&self) -> bool
        ensures { result ≡ self.now.sorted }
    {
        self.sorted
    }

    pub fn values(&self) -> &[AnyValue]
        ensures values { result.now ≡ self.now.values }
        ensures fit { all_fit self.now.dtype self.now.values ≡ true }
        ensures utf8 { All HasUtf8 self.now.values }
    {
        &self.values
    }

    /// The values, which are given up. It takes no memory.
    pub fn into_values(self) -> Vec<AnyValue>
        ensures { result.items ≡ self.values }
    {
        self.values
    }

    /// Whether the column has the name and the type of a field.
    pub(crate) fn is_of(&self, field: &Field) -> bool
        ensures { IsTrue result ↔ (field_of self.now ≡ field.now) }
    {
        self.name == field.name && self.dtype == field.dtype
    }

    /// Appends the values of a column of the same type.
    pub(crate) fn append(&mut self, other: Column) -> Result<(), AllocError>
        requires { other.dtype ≡ self.old.dtype }
        ensures ok { OnOk result (self.new ≡ appended self.old other) }
        ensures err { OnErr result (self.new ≡ self.old) }
    {
        let Column { mut values, .. } = other;
        self.values.append(&mut values)
    }

    /// Keeps the first values.
    pub(crate) fn truncate(&mut self, len: usize)
        ensures { self.new ≡ truncated len self.old }
    {
        self.values.truncate(len);
    }

    /// Drops the first values, and keeps so many of the rest at most.
    pub(crate) fn slice(&mut self, offset: usize, len: usize)
        ensures { self.new ≡ sliced_column offset len self.old }
    {
        let dropped = offset.min(self.values.len());
        self.values.drain(..dropped);
        self.values.truncate(len);
    }

    /// Clears the flag.
    pub(crate) fn clear_sorted(&mut self)
        ensures { self.new ≡ unsorted self.old }
    {
        self.sorted = false;
    }
}
