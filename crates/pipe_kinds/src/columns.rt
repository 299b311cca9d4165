//! Columns of states, one for each aggregate, that change together.

ghost use Rattle.std.specs.Prelude.{◌≡◌, ◌+◌, ◌<◌, ◌≤◌, ◌^◌, ℕ, All, false, IfOk, length, map};
ghost use Rattle.pipe_running.specs.GroupStates.{fresh_states};
ghost use Rattle.pipe_kinds.specs.Columns.{cleared, pushed, released, state_at};
ghost use Rattle.pipe_kinds.specs.Keeping.{keeps_value};
ghost use Rattle.pipe_kinds.specs.ManyStates.{AreJoinable};
ghost use Rattle.pipe_kinds.specs.Stored.{emptied_at, fresh_in, HaveRoom, joined_first, row_in};

use crate::state_column::StateColumn;
use pipe_running::AggregateFunction;
use std::alloc::{AllocError, Global};

/// Columns without states, of the kinds of running aggregates.
pub(crate) fn new_columns(
    alloc: Global,
    prototypes: &[AggregateFunction],
) -> Result<Vec<StateColumn>, AllocError>
    ensures fresh { IfOk result (λ columns. fresh_in columns.items ≡ fresh_states prototypes.now) }
    ensures states { IfOk result (λ columns. All (λ c. length c.states ≡ 0) columns.items) }
{
    let mut columns = Vec::with_capacity(alloc, prototypes.len())?;
    for prototype in prototypes {
        columns.push(StateColumn::new(alloc, prototype))?;
    }
    Ok(columns)
}

/// Makes memory for so many more groups in each column that has so many, and says for how many
/// there is.
pub(crate) fn reserve_all(
    columns: &mut [StateColumn],
    count: usize,
    more: usize,
) -> Result<usize, AllocError>
    ensures states { map (λ c. c.states) columns.new ≡ map (λ c. c.states) columns.old }
    ensures fresh { fresh_in columns.new ≡ fresh_in columns.old }
    ensures keeps { (room : ℕ) → HaveRoom room columns.old → HaveRoom room columns.new }
    ensures room { IfOk result (λ room. HaveRoom room columns.new) }
    ensures enough { IfOk result (λ room. more ≤ room) }
    ensures bound { IfOk result (λ room. count + room < 2 ^ 64) }
{
    let mut room = usize::MAX - count;
    if room < more {
        return Err(AllocError);
    }
    for j in 0..columns.len() {
        let column = &mut columns[j];
        column.reserve(more)?;
        room = room.min(column.room());
    }
    Ok(room)
}

/// Appends a state before any value to each column.
pub(crate) fn push_all(columns: &mut [StateColumn])
    requires { HaveRoom 1 columns.old }
    ensures { columns.new ≡ map pushed columns.old }
{
    for j in 0..columns.len() {
        columns[j].push_fresh();
    }
}

/// Lets all states of each column go.
pub(crate) fn clear_all(columns: &mut [StateColumn])
    ensures { columns.new ≡ map cleared columns.old }
{
    for j in 0..columns.len() {
        columns[j].clear();
    }
}

/// Lets all states of each column go, and gives their memory back.
pub(crate) fn release_all(columns: &mut [StateColumn])
    ensures { columns.new ≡ map released columns.old }
{
    for j in 0..columns.len() {
        columns[j].release();
    }
}

/// Takes the states of a group of other columns over into those of a group.
pub(crate) fn join_all(
    columns: &mut [StateColumn],
    group: usize,
    others: &mut [StateColumn],
    from: usize,
)
    requires within { All (λ c. group < length c.states) columns.old }
    requires from { All (λ o. from < length o.states) others.old }
    requires fresh { fresh_in others.old ≡ fresh_in columns.old }
    requires joinable { AreJoinable (row_in columns.old group) (row_in others.old from) }
    ensures columns { columns.new
        ≡ joined_first group from (length columns.old) others.old columns.old }
    ensures others { others.new ≡ map (emptied_at from) others.old }
{
    for j in 0..columns.len() {
        columns[j].join(group, &mut others[j], from);
    }
}

/// Whether the states of some column keep values themselves.
pub(crate) fn one_keeps_values(columns: &[StateColumn]) -> bool
    ensures { result ≡ false
        → All (λ c. (i : ℕ) → keeps_value (state_at c.states i) ≡ false) columns.now }
{
    for j in 0..columns.len() {
        if columns[j].keeps_values() {
            return true;
        }
    }
    false
}

/// Reads the state of a group in each column, if there is one. Nothing changes.
pub(crate) fn look_all(columns: &[StateColumn], group: usize) -> usize {
    let mut seen = 0usize;
    for column in columns {
        seen = seen.wrapping_add(column.look(group));
    }
    seen
}
