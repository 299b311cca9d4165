//! A group: what the state rows of one kept tuple come to.

ghost use Rattle.std.specs.Prelude.{◌≡◌, ◌+◌, ◌<◌, ◌^◌, All, IfOk, length, map, OnOk};
ghost use Rattle.pipe_columns.specs.AnyValue.{value_cmp};
ghost use Rattle.pipe_columns.specs.declared.any_value.AnyValue.{AnyValue};
ghost use Rattle.pipe_states.specs.Regrouped.{kept};
ghost use Rattle.pipe_regroup.specs.Groups.{group_row, joined_row, started};
ghost use Rattle.pipe_regroup.specs.Rules.{joined_from};

use crate::join::join_value;
use crate::rule::Rule;
use pipe_columns::{AnyValue, Place};
use pipe_states::StateRow;
use std::alloc::{AllocError, Global};

/// What the state rows of one kept tuple come to. Groups are ordered by their tuples, which differ.
#[derive(Drop, PartialEq, Eq, PartialOrd, Ord)]
pub struct Group {
    pub key: Vec<AnyValue>,
    pub first: Place,
    pub last: Place,
    pub rows: u32,
    pub results: Vec<AnyValue>,
}

/// Values are compared in a program as the definition orders them.
pub(crate) fn value_order()
    ensures { (a b : AnyValue) → ⟦<AnyValue as Ord>⟧.cmp a b ≡ value_cmp a b }
{}

/// The values of a tuple at some positions, copied.
fn kept_values(alloc: Global, keep: &[usize], key: &[AnyValue]) -> Result<Vec<AnyValue>, AllocError>
    requires { All (λ i. i < length key.now) keep.now }
    ensures { IfOk result (λ values. values.items ≡ kept keep.now key.now) }
{
    let mut values = Vec::with_capacity(alloc, keep.len())?;
    for i in 0..keep.len() {
        let index = keep[i];
        values.push(key[index].try_clone(alloc)?)?;
    }
    Ok(values)
}

/// Values, copied.
fn copied(alloc: Global, values: &[AnyValue]) -> Result<Vec<AnyValue>, AllocError>
    ensures { IfOk result (λ copies. copies.items ≡ values.now) }
{
    let mut copies = Vec::with_capacity(alloc, values.len())?;
    for value in values {
        copies.push(value.try_clone(alloc)?)?;
    }
    Ok(copies)
}

/// The group of a row that is the first of its kept tuple.
pub(crate) fn start_group(
    alloc: Global,
    keep: &[usize],
    row: &StateRow,
) -> Result<Group, AllocError>
    requires { All (λ i. i < length row.now.key) keep.now }
    ensures { IfOk result (λ group. group_row group ≡ started keep.now row.now) }
{
    let key = kept_values(alloc, keep, row.key.as_slice())?;
    let results = copied(alloc, row.results.as_slice())?;
    Ok(Group {
        key,
        first: row.first,
        last: row.last,
        rows: row.rows,
        results,
    })
}

/// Joins results, output column by output column.
fn join_results(
    alloc: Global,
    rules: &[Rule],
    earlier: bool,
    later: bool,
    held: &mut [AnyValue],
    more: &[AnyValue],
) -> Result<(), AllocError>
    requires held { length held.old ≡ length rules.now }
    requires more { length more.now ≡ length rules.now }
    ensures { OnOk result (held.new ≡ joined_from earlier later 0 rules.now more.now held.old) }
{
    for j in 0..rules.len() {
        let rule = rules[j];
        join_value(alloc, rule, earlier, later, &mut held[j], &more[j])?;
    }
    Ok(())
}

impl Group {
    /// Takes one more row of its kept tuple. Only a text that takes over takes memory.
    pub(crate) fn join(
        &mut self,
        alloc: Global,
        rules: &[Rule],
        row: &StateRow,
    ) -> Result<(), AllocError>
        requires few { self.old.rows + row.now.rows < 2 ^ 32 }
        requires held { length self.old.results.items ≡ length rules.now }
        requires more { length row.now.results ≡ length rules.now }
        ensures { OnOk result (group_row self.new
            ≡ joined_row rules.now (group_row self.old) row.now) }
    {
        let earlier = self.first.cmp(&row.first).is_gt();
        let later = self.last.cmp(&row.last).is_lt();
        let more = row.results.as_slice();
        join_results(alloc, rules, earlier, later, &mut self.results, more)?;
        if earlier {
            self.first = row.first;
        }
        if later {
            self.last = row.last;
        }
        self.rows += row.rows;
        Ok(())
    }
}
