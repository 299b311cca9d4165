//! State rows out of lists of values.

ghost use Rattle.std.specs.Prelude.{◌≡◌, ◌+◌, IfOk, OnOk, drop, length, map};
ghost use Rattle.std.specs.List.{range_with_len};
ghost use Rattle.pipe_saving.specs.Lists.{row_in, values_in};

use crate::extent::Extent;
use pipe_columns::{Column, Place};
use pipe_spill::Values;
use pipe_states::StateRow;
use std::alloc::{AllocError, Global};

/// The lists of values of columns.
pub(crate) fn lists_of(alloc: Global, columns: Vec<Column>) -> Result<Vec<Values>, AllocError>
    ensures { IfOk result (λ v. v.items ≡ map (λ c. c.values) columns.items) }
{
    let mut lists = Vec::with_capacity(alloc, columns.len())?;
    for column in columns {
        lists.push(Values::new(column.into_values()))?;
    }
    Ok(lists)
}

/// Takes the values at a number out of lists, one of each.
fn take_values(alloc: Global, lists: &mut [Values], number: usize) -> Result<Values, AllocError>
    ensures values { IfOk result (λ v. v ≡ values_in number lists.old) }
    ensures rest { OnOk result
        (map (drop (number + 1)) lists.new ≡ map (drop (number + 1)) lists.old) }
{
    let mut values = Vec::with_capacity(alloc, lists.len())?;
    for i in 0..lists.len() {
        values.push(lists[i].take_out(number))?;
    }
    Ok(Values::new(values))
}

/// The same. Few of them take no memory.
fn take_few(alloc: Global, lists: &mut [Values], number: usize) -> Result<Values, AllocError>
    ensures values { IfOk result (λ v. v ≡ values_in number lists.old) }
    ensures rest { OnOk result
        (map (drop (number + 1)) lists.new ≡ map (drop (number + 1)) lists.old) }
{
    match lists.len() {
        1 => Ok(Values::one(lists[0].take_out(number))),
        2 => {
            let first = lists[0].take_out(number);
            Ok(Values::pair(first, lists[1].take_out(number)))
        }
        _ => take_values(alloc, lists, number),
    }
}

/// State rows of keys and results that are taken out of lists, of first places, and of extents.
pub(crate) fn state_rows(
    alloc: Global,
    keys: &mut [Values],
    results: &mut [Values],
    firsts: &[Place],
    extents: &[Extent],
) -> Result<Vec<StateRow>, AllocError>
    requires { length extents.now ≡ length firsts.now }
    ensures { IfOk result (λ v. v.items
        ≡ map (row_in keys.old results.old firsts.now extents.now)
        (range_with_len 0 (length firsts.now))) }
{
    let mut rows = Vec::with_capacity(alloc, firsts.len())?;
    for number in 0..firsts.len() {
        let key = take_few(alloc, keys, number)?;
        let given = take_few(alloc, results, number)?;
        let Extent { last, rows: count } = extents[number];
        rows.push(StateRow {
            key,
            first: firsts[number],
            last,
            rows: count,
            results: given,
        })?;
    }
    Ok(rows)
}
