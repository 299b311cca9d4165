//! Rows of a chunk that follow one another, fed to a group at once.

ghost use Rattle.std.specs.Prelude.{◌≡◌, ◌+◌, ◌-◌, ◌≤◌, ◌<◌, ◌^◌, ◌&&◌, All, length, slice_index_or, slice_set, true};
ghost use Rattle.std.specs.List.{list_all};
ghost use Rattle.pipe_columns.specs.declared.data_type.DataType.TheVariants as dt;
ghost use Rattle.pipe_columns.specs.DataType.{is_string};
ghost use Rattle.pipe_inputs.specs.ChunkRows.{row_at};
ghost use Rattle.pipe_inputs.specs.RowRuns.{run_inputs, run_values};
ghost use Rattle.pipe_kinds.specs.ManyStates.{state_of, states_in, with_state_of, with_states};
ghost use Rattle.pipe_running.specs.GroupStates.{run_from, StatesSeen, TakesFrom};
ghost use Rattle.pipe_running.specs.Runs.{after_run};
ghost use Rattle.pipe_running.specs.States.{after_value, seen, takes};
ghost use Rattle.pipe_groups.specs.GroupRuns.{keep_no_text, keeps_none_of, keeps_value, KeepNoneFrom, with_run};
ghost use Rattle.pipe_groups.specs.Groups.{group_of, HasGroups, KeepsRoom};

use crate::feed::put_place;
use crate::groups::Groups;
use pipe_aggs::AggregateFunction;
use pipe_columns::{DataType, Place};
use pipe_inputs::ChunkRows;
use pipe_kinds::States;

/// Whether a running aggregate keeps a value itself.
fn keeps_value(state: &AggregateFunction) -> bool
    ensures { result ≡ keeps_value state.now }
{
    match state {
        AggregateFunction::First(_) | AggregateFunction::Last(_) => true,
        _ => false,
    }
}

/// Whether a running aggregate keeps a value itself, and the one at a position is of texts.
fn keeps_text_of(state: &AggregateFunction, types: &[DataType], j: usize) -> bool
    ensures { result
        ≡ (keeps_value state.now && is_string (slice_index_or types.now j dt.Boolean)) }
{
    match types.get(j) {
        Some(DataType::String) => keeps_value(state),
        _ => false,
    }
}

/// Whether running aggregates keep no text, whatever inputs of these types they are fed.
fn keep_no_text(prototypes: &[AggregateFunction], types: &[DataType]) -> bool
    ensures { result ≡ keep_no_text prototypes.now types.now }
{
    for j in 0..prototypes.len() {
        if keeps_text_of(&prototypes[j], types, j) {
            return false;
        }
    }
    true
}

/// Feeds a running aggregate an input of rows that follow one another, one by one.
fn feed_each(
    states: &mut States,
    index: usize,
    j: usize,
    rows: &ChunkRows<'_>,
    chunk: u32,
    row: usize,
    len: usize,
)
    requires there { row + len ≤ length rows.now }
    requires placed { row + len ≤ 2 ^ 32 }
    requires within { index < length states.old.groups }
    requires column { j < length states.old.fresh }
    requires state { j < length (states_in states.old index) }
    requires plain { keeps_none_of (state_of states.old index j) (run_values rows.now row len j)
        ≡ true }
    requires taken { list_all (λ v. takes (state_of states.old index j) v)
        (run_values rows.now row len j) ≡ true }
    requires few { seen (state_of states.old index j) + len < 2 ^ 32 }
    ensures { states.new ≡ with_state_of index j (after_run after_value chunk row
        (run_values rows.now row len j) (state_of states.old index j)) states.old }
{
    for at in row..row + len {
        let row = at as u32;
        states.feed_lent(index, j, Place { chunk, row }, rows.input(at, j));
    }
}

/// Feeds a running aggregate an input of rows that follow one another.
fn feed_input(
    states: &mut States,
    index: usize,
    j: usize,
    rows: &ChunkRows<'_>,
    chunk: u32,
    row: usize,
    len: usize,
)
    requires there { row + len ≤ length rows.now }
    requires placed { row + len ≤ 2 ^ 32 }
    requires first { row < 2 ^ 32 }
    requires within { index < length states.old.groups }
    requires column { j < length states.old.fresh }
    requires state { j < length (states_in states.old index) }
    requires plain { keeps_none_of (state_of states.old index j) (run_values rows.now row len j)
        ≡ true }
    requires taken { list_all (λ v. takes (state_of states.old index j) v)
        (run_values rows.now row len j) ≡ true }
    requires few { seen (state_of states.old index j) + len < 2 ^ 32 }
    ensures { states.new ≡ with_state_of index j (after_run after_value chunk row
        (run_values rows.now row len j) (state_of states.old index j)) states.old }
{
    match rows.input_run(row, len, j) {
        Some(values) => states.feed_run(index, j, chunk, row as u32, values),
        None => feed_each(states, index, j, rows, chunk, row, len),
    }
}

/// Feeds each running aggregate of a group its input of rows that follow one another.
fn run_states(
    states: &mut States,
    index: usize,
    rows: &ChunkRows<'_>,
    chunk: u32,
    row: usize,
    len: usize,
)
    requires there { row + len ≤ length rows.now }
    requires placed { row + len ≤ 2 ^ 32 }
    requires first { row < 2 ^ 32 }
    requires short { len < 2 ^ 32 }
    requires within { index < length states.old.groups }
    requires plain { KeepNoneFrom 0 (states_in states.old index) (run_inputs rows.now row len) }
    requires taken { All (λ inputs. TakesFrom 0 (states_in states.old index) inputs)
        (run_inputs rows.now row len) }
    requires few { StatesSeen (2 ^ 32 - 1 - len) (states_in states.old index) }
    ensures { states.new ≡ with_states index (run_from chunk row 0 (run_inputs rows.now row len)
        (states_in states.old index)) states.old }
{
    for j in 0..states.width() {
        feed_input(states, index, j, rows, chunk, row, len);
    }
}

impl Groups {
    /// Whether no group ever keeps a text: none is copied then, and feeding takes no memory.
    pub fn keep_no_text(&self) -> bool
        ensures { result ≡ keep_no_text self.now.shape.prototypes self.now.shape.input_types }
    {
        keep_no_text(&self.prototypes, &self.input_types)
    }

    /// Feeds a group rows of a chunk that follow one another, which are lent, and of which it keeps no
    /// text. It takes no memory.
    pub fn feed_run(&mut self, index: usize, rows: &ChunkRows<'_>, row: usize, len: usize)
        requires within { index < length self.old.groups }
        requires some { 0 < len }
        requires there { row + len ≤ length rows.now }
        requires placed { row + len ≤ 2 ^ 32 }
        requires short { len < 2 ^ 32 }
        requires plain { KeepNoneFrom 0 (group_of self.old.groups index).states
            (run_inputs rows.now row len) }
        requires taken { All (λ inputs. TakesFrom 0 (group_of self.old.groups index).states inputs)
            (run_inputs rows.now row len) }
        requires few { StatesSeen (2 ^ 32 - 1 - len) (group_of self.old.groups index).states }
        ensures groups { HasGroups self.old self.new (slice_set self.old.groups index
            (with_run (row_at rows.now row).place.chunk row (run_inputs rows.now row len)
            (group_of self.old.groups index))) }
        ensures room { KeepsRoom self.old self.new }
    {
        let chunk = rows.chunk();
        let place = rows.place(row);
        run_states(&mut self.states, index, rows, chunk, row, len);
        put_place(&mut self.entries, &mut self.held, index, place);
    }
}
