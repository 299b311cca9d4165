//! A column: the states of all groups for one aggregate.

ghost use Rattle.std.specs.Prelude.{◌≡◌, ◌+◌, ◌<◌, ◌≤◌, ◌^◌, [], false, IsOk, None, OnOk, length};
ghost use Rattle.std.specs.Prelude.{slice_set, true};
ghost use Rattle.std.specs.List.{list_all};
ghost use Rattle.pipe_running.specs.Lent.{keeps_text, text_of_run};
ghost use Rattle.pipe_running.specs.Runs.{after_run};
ghost use Rattle.pipe_running.specs.States.{after_value, alike, fresh, given, joined, seen, takes};
ghost use Rattle.pipe_kinds.specs.Columns.{cleared, pushed, released, state_at, with_state};
ghost use Rattle.pipe_kinds.specs.Keeping.{keeps_value};

use crate::kind::KindStates;
use crate::kind_list::KindList;
use pipe_columns::{AnyValue, Place};
use pipe_running::{AggregateFunction, Finalized};
use std::alloc::{AllocError, Global};
use std::marker::Model;

/// The states of all groups for one aggregate, in a vector of its kind. Contracts see the list of
/// them, each as a running aggregate of any kind, what one is before any value, and the room for
/// more.
#[derive(Drop)]
pub struct StateColumn {
    kind: KindStates,
}

impl Model for StateColumn {
    ghost use Rattle.pipe_kinds.specs.Columns.{ColumnStates};

    ghost Value = { ColumnStates };

    ghost use Rattle.pipe_kinds.specs.Kinds.{fresh_of, room_of, states_of};

    ghost view = { λ a. record {
      fresh = fresh_of a.kind;
      states = states_of a.kind;
      room = room_of a.kind;
    } };
}

impl StateColumn {
    /// No states, of the kind of a running aggregate.
    pub fn new(alloc: Global, prototype: &AggregateFunction) -> StateColumn
        ensures fresh { result.fresh ≡ fresh prototype.now }
        ensures states { result.states ≡ [] }
    {
        StateColumn {
            kind: KindStates::new(alloc, prototype),
        }
    }

    /// Makes memory for so many more groups.
    pub fn reserve(&mut self, more: usize) -> Result<(), AllocError>
        ensures states { self.new.states ≡ self.old.states }
        ensures fresh { self.new.fresh ≡ self.old.fresh }
        ensures ok { OnOk result (more ≤ self.new.room) }
        ensures room { self.old.room ≤ self.new.room }
        ensures succeeds { more ≤ self.old.room → IsOk result }
    {
        self.kind.reserve(more)
    }

    /// Appends a state before any value, where there is room.
    pub fn push_fresh(&mut self)
        requires { 0 < self.old.room }
        ensures { self.new ≡ pushed self.old }
    {
        self.kind.push_fresh();
    }

    /// Lets all states go. The room stays.
    pub fn clear(&mut self)
        ensures { self.new ≡ cleared self.old }
    {
        self.kind.clear();
    }

    /// Feeds the state of a group a value.
    #[inline(always)]
    pub fn feed(&mut self, group: usize, place: Place, value: AnyValue)
        requires within { group < length self.old.states }
        requires taken { takes (state_at self.old.states group) value ≡ true }
        requires few { seen (state_at self.old.states group) + 1 < 2 ^ 32 }
        ensures { self.new
            ≡ with_state group (after_value place value (state_at self.old.states group)) self.old }
    {
        self.kind.feed(group, place, value);
    }

    /// Whether its states keep values themselves: a first or a last does.
    #[inline(always)]
    pub fn keeps_values(&self) -> bool
        ensures { (i : _) → result ≡ false → keeps_value (state_at self.now.states i) ≡ false }
    {
        self.kind.keeps_values()
    }

    /// Whether the state of a group would keep a value as a text.
    #[inline(always)]
    pub fn keeps_text(&self, group: usize, place: Place, value: &AnyValue) -> bool
        requires { group < length self.now.states }
        ensures { result ≡ keeps_text place value.now (state_at self.now.states group) }
    {
        self.kind.keeps_text(group, place, value)
    }

    /// Feeds the state of a group a value that is lent, and is no text that it would keep.
    #[inline(always)]
    pub fn feed_lent(&mut self, group: usize, place: Place, value: &AnyValue)
        requires within { group < length self.old.states }
        requires taken { takes (state_at self.old.states group) value.now ≡ true }
        requires few { seen (state_at self.old.states group) + 1 < 2 ^ 32 }
        requires plain { keeps_text place value.now (state_at self.old.states group) ≡ false }
        ensures { self.new ≡ with_state group
            (after_value place value.now (state_at self.old.states group)) self.old }
    {
        self.kind.feed_lent(group, place, value);
    }

    /// What the state of a group gives, which is then as before any value.
    pub fn finalize(&mut self, group: usize) -> Finalized
        requires { group < length self.old.states }
        ensures given { result ≡ given (state_at self.old.states group) }
        ensures states { self.new
            ≡ with_state group (fresh (state_at self.old.states group)) self.old }
    {
        self.kind.finalize(group)
    }

    /// For how many more groups there is memory.
    pub fn room(&self) -> usize
        ensures { result ≡ self.now.room }
    {
        self.kind.room()
    }

    /// Lets all states go, and gives their memory back.
    pub fn release(&mut self)
        ensures { self.new ≡ released self.old }
    {
        self.kind.release();
    }

    /// Feeds the state of a group the values of rows that follow one another, which are lent, and
    /// among which is no text that it would keep.
    pub fn feed_run(&mut self, group: usize, chunk: u32, row: u32, values: &[AnyValue])
        requires within { group < length self.old.states }
        requires taken { list_all (λ v. takes (state_at self.old.states group) v) values.now
            ≡ true }
        requires few { seen (state_at self.old.states group) + length values.now < 2 ^ 32 }
        requires rows { row + length values.now ≤ 2 ^ 32 }
        requires plain { text_of_run chunk row values.now (state_at self.old.states group) ≡ None }
        ensures { self.new ≡ with_state group (after_run after_value chunk row values.now
            (state_at self.old.states group)) self.old }
    {
        self.kind.feed_run(group, chunk, row, values);
    }

    /// Takes the state of a group of another column over, which is then as before any value.
    pub fn join(&mut self, group: usize, other: &mut StateColumn, from: usize)
        requires within { group < length self.old.states }
        requires from { from < length other.old.states }
        requires fresh { other.old.fresh ≡ self.old.fresh }
        requires alike { alike (state_at self.old.states group) (state_at other.old.states from)
            ≡ true }
        requires few { seen (state_at self.old.states group) + seen (state_at other.old.states from)
            < 2 ^ 32 }
        ensures states { self.new ≡ with_state group
            (joined (state_at self.old.states group) (state_at other.old.states from)) self.old }
        ensures others { other.new ≡ with_state from other.old.fresh other.old }
    {
        self.kind.join(group, &mut other.kind, from);
    }

    /// Reads a group's state, if there is one. Nothing changes.
    #[inline(always)]
    pub fn look(&self, group: usize) -> usize {
        self.kind.look(group)
    }
}
