//! A frame of an answer, and what is shown of it.

use lavzimo_rows::{ColumnOrder, MeanColumns, RowOrder, Shown, ShownColumn, Shows};
use pipe_columns::{AnyValue, Column, DataFrame, DataType, Text};
use std::alloc::{AllocError, Global};
use std::test::Fail;

fn column_of(
    alloc: Global,
    name: &str,
    dtype: DataType,
    values: Vec<AnyValue>,
) -> Result<Column, Fail> {
    let name = Text::new(alloc, name)?;
    Ok(Column::new(name, dtype, false, values).ok_or("no column")?)
}

/// Cities, of which one has no name and one a comma and a quote.
fn cities(alloc: Global) -> Result<Vec<AnyValue>, AllocError> {
    let oslo = AnyValue::Text(Text::new(alloc, "Oslo")?);
    let quoted = AnyValue::Text(Text::new(alloc, "a,\"b")?);
    let bonn = AnyValue::Text(Text::new(alloc, "Bonn")?);
    Ok(vec![in alloc; oslo, AnyValue::Null, quoted, bonn]?)
}

/// Numbers, and nulls.
fn numbers(alloc: Global, numbers: &[Option<i128>]) -> Result<Vec<AnyValue>, AllocError> {
    let mut values = Vec::new(alloc);
    for number in numbers {
        values.push(match number {
            Some(number) => AnyValue::Int(*number),
            None => AnyValue::Null,
        })?;
    }
    Ok(values)
}

/// An answer: cities, and both halves of a mean, of which one is that of no value and one has the
/// least sum of all.
pub(crate) fn answer(alloc: Global) -> Result<DataFrame, Fail> {
    let cities = column_of(alloc, "city", DataType::String, cities(alloc)?)?;
    let sums = column_of(
        alloc,
        "n_sum",
        DataType::Int128,
        numbers(alloc, &[Some(5), None, Some(i128::MIN), Some(-1)])?,
    )?;
    let counts = column_of(
        alloc,
        "n_count",
        DataType::UInt32,
        numbers(alloc, &[Some(2), Some(0), Some(1), Some(3)])?,
    )?;
    let columns = vec![in alloc; cities, sums, counts]?;
    Ok(DataFrame::new(4, columns).ok_or("no frame")?)
}

fn shown_as(alloc: Global, name: &str, shows: Shows) -> Result<ShownColumn, AllocError> {
    let name = Text::new(alloc, name)?;
    Ok(ShownColumn { name, shows })
}

/// The city, the mean and the exact sum, in an order.
pub(crate) fn all_in(alloc: Global, order: RowOrder) -> Result<Shown, AllocError> {
    let mean = Shows::Mean(MeanColumns { sum: 1, count: 2 });
    let city = shown_as(alloc, "city", Shows::Value(0))?;
    let mean = shown_as(alloc, "mean", mean)?;
    let sum = shown_as(alloc, "sum", Shows::Value(1))?;
    let columns = vec![in alloc; city, mean, sum]?;
    Ok(Shown::new(columns, 1, order))
}

/// The order by the mean.
pub(crate) fn by_mean(descending: bool) -> RowOrder {
    RowOrder::Column(ColumnOrder {
        column: 1,
        descending,
    })
}
