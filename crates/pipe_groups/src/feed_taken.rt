//! Rows whose inputs are taken out of a list, fed to groups.

ghost use Rattle.std.specs.Prelude.{◌≡◌, ◌+◌, ◌-◌, ◌<◌, ◌^◌, drop, length, slice_set};
ghost use Rattle.pipe_columns.specs.Frame.{value_at};
ghost use Rattle.pipe_kinds.specs.ManyStates.{states_in, with_states};
ghost use Rattle.pipe_running.specs.GroupStates.{fed_from, StatesSeen, TakesFrom};
ghost use Rattle.pipe_groups.specs.Groups.{group_of, HasGroups, KeepsRoom, group_with_row};

use crate::feed::put_place;
use crate::groups::Groups;
use pipe_columns::{AnyValue, Place};
use pipe_kinds::States;
use std::mem;

/// Takes the value at a position out, null past the last.
#[inline(always)]
fn take_value(values: &mut [AnyValue], j: usize) -> AnyValue
    ensures value { result ≡ value_at values.old j }
    ensures rest { drop (j + 1) values.new ≡ drop (j + 1) values.old }
    ensures fits { length values.new ≡ length values.old }
{
    if j >= values.len() {
        return AnyValue::Null;
    }
    mem::replace(&mut values[j], AnyValue::Null)
}

/// Feeds each its input of a row, which is taken out of a list.
fn take_states(states: &mut States, index: usize, place: Place, values: &mut [AnyValue])
    requires within { index < length states.old.groups }
    requires few { StatesSeen (2 ^ 32 - 2) (states_in states.old index) }
    requires taken { TakesFrom 0 (states_in states.old index) values.old }
    ensures states { states.new ≡ with_states index
        (fed_from place 0 values.old (states_in states.old index)) states.old }
    ensures fits { length values.new ≡ length values.old }
{
    for j in 0..states.width() {
        let value = take_value(values, j);
        states.feed(index, j, place, value);
    }
}

impl Groups {
    /// Feeds a group a row: its place, and its inputs, which are taken out of a list. It takes no
    /// memory.
    pub fn feed_taken(&mut self, index: usize, place: Place, values: &mut [AnyValue])
        requires within { index < length self.old.groups }
        requires few { StatesSeen (2 ^ 32 - 2) (group_of self.old.groups index).states }
        requires taken { TakesFrom 0 (group_of self.old.groups index).states values.old }
        ensures groups { HasGroups self.old self.new (slice_set self.old.groups index
            (group_with_row place values.old (group_of self.old.groups index))) }
        ensures room { KeepsRoom self.old self.new }
        ensures fits { length values.new ≡ length values.old }
    {
        take_states(&mut self.states, index, place, values);
        put_place(&mut self.entries, &mut self.held, index, place);
    }
}
