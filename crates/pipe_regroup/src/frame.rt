//! The frame of groups: a row for each, its key and then its results.

ghost use Rattle.std.specs.Prelude.{◌≡◌, false, IfOk, map, OnOk};
ghost use Rattle.pipe_columns.specs.Frame.{AreOfType, frame_of, value_at};
ghost use Rattle.pipe_regroup.specs.Frames.{AreRowsOf, values_at, values_of, without};

use crate::group::Group;
use pipe_columns::{AnyValue, Column, DataFrame, Field, Schema};
use std::alloc::{AllocError, Global};
use std::mem;

/// Takes the value at a place of a group's row out, null past the last.
fn take_value(group: &mut Group, place: usize) -> AnyValue
    ensures value { result ≡ value_at (values_of group.old) place }
    ensures rest { values_of group.new ≡ without place (values_of group.old) }
{
    let width = group.key.len();
    if place < width {
        return mem::replace(&mut group.key[place], AnyValue::Null);
    }
    if place - width < group.results.len() {
        return mem::replace(&mut group.results[place - width], AnyValue::Null);
    }
    AnyValue::Null
}

/// Takes the values at a place of the rows of groups out.
fn take_values(
    alloc: Global,
    groups: &mut [Group],
    place: usize,
) -> Result<Vec<AnyValue>, AllocError>
    ensures values { IfOk result (λ v. v.items ≡ values_at place (map values_of groups.old)) }
    ensures rest { OnOk result
        (map values_of groups.new ≡ map (without place) (map values_of groups.old)) }
{
    let mut values = Vec::with_capacity(alloc, groups.len())?;
    for i in 0..groups.len() {
        values.push(take_value(&mut groups[i], place))?;
    }
    Ok(values)
}

/// A column of a field, of values of its type.
fn column_of(alloc: Global, field: &Field, values: Vec<AnyValue>) -> Result<Column, AllocError>
    requires { AreOfType field.now.dtype values.items }
    ensures { IfOk result (λ c. c ≡ record {
      name = field.now.name;
      dtype = field.now.dtype;
      sorted = false;
      values = values.items;
    }) }
{
    let name = field.name.try_clone(alloc)?;
    Ok(Column::of_type(name, field.dtype, false, values))
}

/// The frame of groups whose rows are of a schema's types. Their values are taken out.
pub(crate) fn frame_of_groups(
    alloc: Global,
    schema: &Schema,
    groups: &mut [Group],
) -> Result<DataFrame, AllocError>
    requires { AreRowsOf schema.now groups.old }
    ensures { IfOk result (λ f. f ≡ frame_of schema.now (map values_of groups.old)) }
{
    let fields = schema.fields();
    let mut columns = Vec::with_capacity(alloc, fields.len())?;
    for place in 0..fields.len() {
        let values = take_values(alloc, groups, place)?;
        columns.push(column_of(alloc, &fields[place], values)?)?;
    }
    Ok(DataFrame::new(groups.len(), columns).unwrap())
}
