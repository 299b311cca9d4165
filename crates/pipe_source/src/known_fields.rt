//! Fields of which a look at their bytes' kinds tells that they read.

ghost use Rattle.std.specs.Prelude.{◌<◌, ◌≡◌, IfOk, IsTrue, length};
ghost use Rattle.pipe_source.specs.Known.{AreKnown, AreKnownAt, AreKnownIn, IsKnownField};
ghost use Rattle.pipe_source.specs.Layout.{ArePlacedIn, FitsLayout};

use crate::layout::Layout;
use pipe_columns::{DataType, Field};
use std::alloc::{AllocError, Global};

/// Which fields are to be numbers, where each is a number of 64 bits or a text, whose bytes are all ASCII.
/// Of other fields it tells nothing, by a list of none.
pub(crate) fn known_numbers(
    alloc: Global,
    fields: &[Field],
    is_ascii: bool,
) -> Result<Vec<bool>, AllocError>
    ensures { IfOk result (λ v. 0 < length v.items → AreKnown is_ascii v.items fields.now) }
{
    let mut numbers = Vec::with_capacity(alloc, fields.len())?;
    for field in fields {
        match field.dtype {
            DataType::Int64 => numbers.push(true)?,
            DataType::String if is_ascii => numbers.push(false)?,
            _ => return Ok(Vec::new(alloc)),
        }
    }
    Ok(numbers)
}

/// Whether a field, of which is told whether it is to be a number, is as known.
fn is_known(field: &Field, number: bool, is_ascii: bool) -> bool
    ensures { IsTrue result → IsKnownField is_ascii number field.now }
{
    match field.dtype {
        DataType::Int64 if number => true,
        DataType::String if is_ascii && !number => true,
        _ => false,
    }
}

/// Whether each column, of whose field is told whether it is to be a number, is as known.
fn are_known(columns: &[Field], places: &[usize], numbers: &[bool], is_ascii: bool) -> bool
    requires placed { ArePlacedIn columns.now (length numbers.now) places.now }
    ensures { IsTrue result → AreKnownAt is_ascii numbers.now columns.now places.now }
{
    for (i, column) in columns.iter().enumerate() {
        if !is_known(column, numbers[places[i]], is_ascii) {
            return false;
        }
    }
    true
}

/// Which fields of a row hold columns of numbers, as told of so many fields.
fn number_places(
    alloc: Global,
    columns: &[Field],
    places: &[usize],
    count: usize,
) -> Result<Vec<bool>, AllocError>
    requires placed { ArePlacedIn columns.now count places.now }
    ensures { IfOk result (λ v. length v.items ≡ count) }
{
    let mut numbers = vec![in alloc; false; count]?;
    for (i, column) in columns.iter().enumerate() {
        if column.dtype == DataType::Int64 {
            numbers[places[i]] = true;
        }
    }
    Ok(numbers)
}

/// Which fields are to be numbers, where each column is a number of 64 bits or a text, whose bytes are all
/// ASCII; those that are no column may be anything. Of other columns it tells nothing, by a list of none.
pub(crate) fn known_columns(
    alloc: Global,
    columns: &[Field],
    layout: &Layout,
    is_ascii: bool,
) -> Result<Vec<bool>, AllocError>
    requires fit { FitsLayout columns.now layout.now }
    ensures { IfOk result (λ v. 0 < length v.items
        → AreKnownIn is_ascii v.items columns.now layout.now) }
{
    let numbers = number_places(alloc, columns, &layout.places, layout.count)?;
    if are_known(columns, &layout.places, &numbers, is_ascii) {
        return Ok(numbers);
    }
    Ok(Vec::new(alloc))
}
