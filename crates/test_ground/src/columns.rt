//! Frames, their columns and schemas: each public call once, where all goes well.

ghost use Rattle.std.specs.Prelude.{◌≡◌, ◌∷◌, [], IfOk, codes};
ghost use Rattle.pipe_columns.specs.declared.data_type.DataType.TheVariants as dt;
ghost use Rattle.pipe_columns.specs.Frame.{fields_of};

use pipe_columns::{AnyValue, Column, DataFrame, DataType, Field, Schema, Text};
use std::alloc::{AllocError, Global};
use std::test::Fail;

/// A frame of one column `v` of two numbers, flagged as sorted.
fn pair(alloc: Global, first: i128, second: i128) -> Result<DataFrame, Fail>
    ensures fields { IfOk result (λ f. fields_of f.columns
        ≡ record { name = codes "v"; dtype = dt.Int64 } ∷ []) }
    ensures height { IfOk result (λ f. f.height ≡ 2) }
{
    let values = vec![in alloc; AnyValue::Int(first), AnyValue::Int(second)]?;
    let name = Text::new(alloc, "v")?;
    let column = Column::new(name, DataType::Int64, true, values).ok_or("no column")?;
    let columns = vec![in alloc; column]?;
    Ok(DataFrame::new(2, columns).ok_or("no frame")?)
}

/// Whether values are these numbers.
fn are_numbers(values: &[AnyValue], numbers: &[i128]) -> bool {
    for (value, number) in values.iter().zip(numbers) {
        if !matches!(value, AnyValue::Int(found) if found == number) {
            return false;
        }
    }
    values.len() == numbers.len()
}

/// Whether the first column of a frame has this flag and these numbers.
fn has_numbers(frame: &DataFrame, sorted: bool, numbers: &[i128]) -> bool {
    match frame.columns().first() {
        Some(column) => column.sorted() == sorted && are_numbers(column.values(), numbers),
        None => false,
    }
}

#[test]
fn stacks(rt: HostRuntime) -> Result<(), Fail> {
    let mut frame = pair(rt.alloc(), 1, 2)?;
    frame.vstack(pair(rt.alloc(), 3, 4)?)?;
    assert!(rt; frame.height() == 4 && has_numbers(&frame, false, &[1, 2, 3, 4]));
    Ok(())
}

#[test]
fn slices(rt: HostRuntime) -> Result<(), Fail> {
    let frame = pair(rt.alloc(), 1, 2)?.slice(1, 9);
    assert!(rt; frame.height() == 1 && has_numbers(&frame, true, &[2]));
    Ok(())
}

#[test]
fn gives_parts_up(rt: HostRuntime) -> Result<(), Fail> {
    let mut columns = pair(rt.alloc(), 1, 2)?.into_columns();
    assert!(rt; columns.len() == 1);
    let column = columns.pop().ok_or("no column")?;
    let values = column.into_values();
    assert!(rt; are_numbers(&values, &[1, 2]));
    Ok(())
}

/// The schema of a column `v` of a type.
fn schema_of(alloc: Global, dtype: DataType) -> Result<Schema, AllocError> {
    let mut fields = Vec::new(alloc);
    let name = Text::new(alloc, "v")?;
    fields.push(Field { name, dtype })?;
    Ok(Schema::new(fields))
}

#[test]
fn fits_a_schema(rt: HostRuntime) -> Result<(), Fail> {
    let schema = schema_of(rt.alloc(), DataType::Int64)?;
    let other = schema_of(rt.alloc(), DataType::Int32)?;
    let frame = DataFrame::empty_with_schema(rt.alloc(), &schema)?;
    assert!(rt; frame.height() == 0 && frame.fits(&schema) && !frame.fits(&other));
    Ok(())
}

#[test]
fn finds_a_field(rt: HostRuntime) -> Result<(), Fail> {
    let schema = schema_of(rt.alloc(), DataType::Int64)?;
    for (name, due) in &[("v", Some(0)), ("w", None)] {
        let name = Text::new(rt.alloc(), name)?;
        assert!(rt; schema.position(&name) == *due);
    }
    Ok(())
}
