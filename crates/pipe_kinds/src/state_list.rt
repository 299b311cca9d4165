//! States of one kind in a vector, seen as running aggregates of any kind.

ghost use Rattle.std.specs.Prelude.{◌≡◌, ◌+◌, ◌<◌, ◌≤◌, ◌^◌, ◌∷◌, ◌++◌, [], IsOk, OnOk, length};
ghost use Rattle.std.specs.Prelude.{map, slice_set, true};
ghost use Rattle.pipe_running.specs.States.{after_value, alike, fresh, given, joined, seen, takes};
ghost use Rattle.pipe_kinds.specs.Columns.{room_in, state_at};

use crate::kind_state::{AsFunction, KindState};
use pipe_columns::{AnyValue, Place};
use pipe_running::{AggregateFunction, Finalized};
use std::alloc::AllocError;
use std::mem;

/// Makes memory for so many more.
pub(crate) fn reserve_states<A: AsFunction>(
    states: &mut Vec<A>,
    more: usize,
) -> Result<(), AllocError>
    ensures states { map A.as_function states.new.items ≡ map A.as_function states.old.items }
    ensures ok { OnOk result (more ≤ room_in states.new) }
    ensures room { room_in states.old ≤ room_in states.new }
    ensures succeeds { more ≤ room_in states.old → IsOk result }
{
    states.reserve(more)
}

/// Appends one, where there is room.
pub(crate) fn push_state<A: AsFunction>(states: &mut Vec<A>, state: A)
    requires { 0 < room_in states.old }
    ensures states { map A.as_function states.new.items
        ≡ map A.as_function states.old.items ++ A.as_function state ∷ [] }
    ensures room { room_in states.new + 1 ≡ room_in states.old }
{
    states.push_reserved(state);
}

/// Lets all go. The room stays.
pub(crate) fn clear_states<A: AsFunction>(states: &mut Vec<A>)
    ensures states { map A.as_function states.new.items ≡ [] }
    ensures room { room_in states.new
        ≡ room_in states.old + length (map A.as_function states.old.items) }
{
    states.clear();
}

/// Feeds the one at an index a value.
#[inline(always)]
pub(crate) fn take_at<A: KindState>(states: &mut Vec<A>, at: usize, place: Place, value: AnyValue)
    requires within { at < length (map A.as_function states.old.items) }
    requires taken { takes (state_at (map A.as_function states.old.items) at) value ≡ true }
    requires few { seen (state_at (map A.as_function states.old.items) at) + 1 < 2 ^ 32 }
    ensures states { map A.as_function states.new.items
        ≡ slice_set (map A.as_function states.old.items) at
        (after_value place value (state_at (map A.as_function states.old.items) at)) }
    ensures room { room_in states.new ≡ room_in states.old }
{
    let state = &mut states[at];
    state.pre_agg(place, value);
}

/// What the one at an index gives, which is then as before any value.
pub(crate) fn give_at<A: KindState>(states: &mut Vec<A>, at: usize) -> Finalized
    requires { at < length (map A.as_function states.old.items) }
    ensures given { result ≡ given (state_at (map A.as_function states.old.items) at) }
    ensures states { map A.as_function states.new.items
        ≡ slice_set (map A.as_function states.old.items) at
        (fresh (state_at (map A.as_function states.old.items) at)) }
    ensures room { room_in states.new ≡ room_in states.old }
{
    let state = &mut states[at];
    state.finalize()
}

/// For how many more there is memory.
pub(crate) fn room_left<A: AsFunction>(states: &Vec<A>) -> usize
    ensures { result ≡ room_in states.now }
{
    states.capacity() - states.len()
}

/// Lets all go, and gives their memory back.
pub(crate) fn release_states<A: AsFunction>(states: &mut Vec<A>)
    ensures states { map A.as_function states.new.items ≡ [] }
    ensures room { room_in states.new ≡ 0 }
{
    let alloc = *states.allocator();
    *states = Vec::new(alloc);
}

/// Takes the one at an index of others over into that at one, and leaves a new one in its place.
pub(crate) fn join_at<A: KindState>(
    states: &mut Vec<A>,
    at: usize,
    others: &mut Vec<A>,
    from: usize,
    new: A,
)
    requires within { at < length (map A.as_function states.old.items) }
    requires from { from < length (map A.as_function others.old.items) }
    requires alike { alike (state_at (map A.as_function states.old.items) at)
        (state_at (map A.as_function others.old.items) from) ≡ true }
    requires few { seen (state_at (map A.as_function states.old.items) at)
        + seen (state_at (map A.as_function others.old.items) from) < 2 ^ 32 }
    ensures states { map A.as_function states.new.items
        ≡ slice_set (map A.as_function states.old.items) at
        (joined (state_at (map A.as_function states.old.items) at)
        (state_at (map A.as_function others.old.items) from)) }
    ensures room { room_in states.new ≡ room_in states.old }
    ensures others { map A.as_function others.new.items
        ≡ slice_set (map A.as_function others.old.items) from (A.as_function new) }
    ensures others_room { room_in others.new ≡ room_in others.old }
{
    let other = mem::replace(&mut others[from], new);
    let state = &mut states[at];
    state.combine(other);
}

/// Reads the running aggregate at an index, if there is one. Nothing changes.
#[inline(always)]
pub(crate) fn look_at(states: &[AggregateFunction], at: usize) -> usize {
    match states.get(at) {
        Some(AggregateFunction::Null(_)) => 1,
        _ => 0,
    }
}
