//! States of one kind that are fed the values of rows which follow one another.

ghost use Rattle.std.specs.Prelude.{◌≡◌, ◌+◌, ◌<◌, ◌≤◌, ◌^◌, None, length, map, slice_set, true};
ghost use Rattle.std.specs.List.{list_all};
ghost use Rattle.pipe_running.specs.Lent.{text_of_run};
ghost use Rattle.pipe_running.specs.Runs.{after_run};
ghost use Rattle.pipe_running.specs.States.{after_value, seen, takes};
ghost use Rattle.pipe_kinds.specs.Columns.{room_in, state_at};

use crate::kind_lent::plain_value;
use crate::plain_state::PlainState;
use pipe_columns::{AnyValue, Place};
use pipe_running::AggregateFunction;

/// Feeds a state that keeps no value those of rows that follow one another.
fn run_state<A: PlainState>(state: &mut A, chunk: u32, first_row: u32, values: &[AnyValue])
    requires taken { list_all (λ v. takes (A.as_function state.old) v) values.now ≡ true }
    requires few { seen (A.as_function state.old) + length values.now < 2 ^ 32 }
    requires rows { first_row + length values.now ≤ 2 ^ 32 }
    ensures { A.as_function state.new
        ≡ after_run after_value chunk first_row values.now (A.as_function state.old) }
{
    for index in 0..values.len() {
        let row = first_row + index as u32;
        state.pre_agg(Place { chunk, row }, plain_value(&values[index]));
    }
}

/// Feeds the one at an index, which keeps no value, those of rows that follow one another.
pub(crate) fn run_at<A: PlainState>(
    states: &mut Vec<A>,
    at: usize,
    chunk: u32,
    first_row: u32,
    values: &[AnyValue],
)
    requires within { at < length (map A.as_function states.old.items) }
    requires taken { list_all (λ v. takes (state_at (map A.as_function states.old.items) at) v)
        values.now ≡ true }
    requires few { seen (state_at (map A.as_function states.old.items) at) + length values.now
        < 2 ^ 32 }
    requires rows { first_row + length values.now ≤ 2 ^ 32 }
    ensures states { map A.as_function states.new.items
        ≡ slice_set (map A.as_function states.old.items) at (after_run after_value chunk first_row
        values.now (state_at (map A.as_function states.old.items) at)) }
    ensures room { room_in states.new ≡ room_in states.old }
{
    let state = &mut states[at];
    run_state(state, chunk, first_row, values);
}

/// Feeds the running aggregate at an index the values of rows that follow one another, among which
/// is no text that it would keep.
pub(crate) fn lend_run_at(
    states: &mut Vec<AggregateFunction>,
    at: usize,
    chunk: u32,
    first_row: u32,
    values: &[AnyValue],
)
    requires within { at < length states.old.items }
    requires taken { list_all (λ v. takes (state_at states.old.items at) v) values.now ≡ true }
    requires few { seen (state_at states.old.items at) + length values.now < 2 ^ 32 }
    requires rows { first_row + length values.now ≤ 2 ^ 32 }
    requires plain { text_of_run chunk first_row values.now (state_at states.old.items at) ≡ None }
    ensures states { states.new.items ≡ slice_set states.old.items at
        (after_run after_value chunk first_row values.now (state_at states.old.items at)) }
    ensures room { room_in states.new ≡ room_in states.old }
{
    let state = &mut states[at];
    state.pre_agg_ordered_lent(chunk, first_row, values);
}
