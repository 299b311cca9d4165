//! The states of all groups, for all aggregates.

ghost use Rattle.std.specs.Prelude.{◌≡◌, ◌+◌, ◌<◌, ◌≤◌, ◌^◌, [], false, ℕ, IfOk, IsOk, None, OnOk};
ghost use Rattle.std.specs.Prelude.{length, true};
ghost use Rattle.std.specs.List.{list_all};
ghost use Rattle.pipe_running.specs.GroupStates.{fresh_states, joined_states};
ghost use Rattle.pipe_running.specs.Lent.{keeps_text, text_of_run};
ghost use Rattle.pipe_running.specs.Runs.{after_run};
ghost use Rattle.pipe_running.specs.States.{after_value, fresh, given, seen, takes};
ghost use Rattle.pipe_kinds.specs.Keeping.{keeps_value};
ghost use Rattle.pipe_kinds.specs.ManyStates.{AreJoinable, state_of, states_in, with_fresh};
ghost use Rattle.pipe_kinds.specs.ManyStates.{with_state_of, with_states};

use crate::columns::{
    clear_all, join_all, look_all, new_columns, one_keeps_values, push_all, release_all,
    reserve_all,
};
use crate::state_column::StateColumn;
use pipe_columns::{AnyValue, Place};
use pipe_running::{AggregateFunction, Finalized};
use std::alloc::{AllocError, Global};
use std::marker::Model;

/// The states of all groups, those of each aggregate in a column of their own. Contracts see them
/// group by group, with what a group's are before any row, and the room for more.
#[derive(Drop)]
pub struct States {
    columns: Vec<StateColumn>,
    count: usize,
    room: usize,
}

impl Model for States {
    ghost use Rattle.pipe_kinds.specs.ManyStates.{ManyStates};

    ghost Value = { ManyStates };

    ghost use Rattle.pipe_kinds.specs.Stored.{AreStored, seen_in};

    ghost view = { λ a. seen_in a.columns.items a.count a.room };

    ghost invariant = { λ a. AreStored a.columns.items a.count a.room };
}

impl States {
    /// No groups, with states of the kinds of running aggregates.
    pub fn new(alloc: Global, prototypes: &[AggregateFunction]) -> Result<States, AllocError>
        ensures fresh { IfOk result (λ s. s.fresh ≡ fresh_states prototypes.now) }
        ensures groups { IfOk result (λ s. s.groups ≡ []) }
    {
        let columns = new_columns(alloc, prototypes)?;
        Ok(States {
            columns,
            count: 0,
            room: 0,
        })
    }

    /// How many states a group has.
    pub fn width(&self) -> usize
        ensures width { result ≡ length self.now.fresh }
        ensures sized { (i : ℕ) → i < length self.now.groups
            → length (states_in self.now i) ≡ length self.now.fresh }
    {
        self.columns.len()
    }

    /// How many groups there are.
    pub fn len(&self) -> usize
        ensures { result ≡ length self.now.groups }
    {
        self.count
    }

    /// Makes memory for so many more groups.
    pub fn reserve(&mut self, groups: usize) -> Result<(), AllocError>
        ensures groups { self.new.groups ≡ self.old.groups }
        ensures fresh { self.new.fresh ≡ self.old.fresh }
        ensures ok { OnOk result (groups ≤ self.new.room) }
        ensures room { self.old.room ≤ self.new.room }
        ensures succeeds { groups ≤ self.old.room → IsOk result }
    {
        if groups <= self.room {
            return Ok(());
        }
        self.room = reserve_all(&mut self.columns, self.count, groups)?;
        Ok(())
    }

    /// Appends a group without rows, where there is room.
    pub fn push_fresh(&mut self)
        requires { 0 < self.old.room }
        ensures { self.new ≡ with_fresh self.old }
    {
        push_all(&mut self.columns);
        self.count += 1;
        self.room -= 1;
    }

    /// Lets all groups go. The room stays.
    pub fn clear(&mut self)
        ensures groups { self.new.groups ≡ [] }
        ensures fresh { self.new.fresh ≡ self.old.fresh }
        ensures room { self.old.room ≤ self.new.room }
    {
        clear_all(&mut self.columns);
        self.count = 0;
    }

    /// Lets all groups go, and gives their memory back.
    pub fn release(&mut self)
        ensures groups { self.new.groups ≡ [] }
        ensures fresh { self.new.fresh ≡ self.old.fresh }
    {
        release_all(&mut self.columns);
        self.count = 0;
        self.room = 0;
    }

    /// Whether some state may keep a value itself: a first or a last does.
    pub fn keeps_values(&self) -> bool
        ensures { (i j : ℕ) → result ≡ false → keeps_value (state_of self.now i j) ≡ false }
    {
        one_keeps_values(&self.columns)
    }

    /// Whether the states of an aggregate keep values themselves.
    #[inline(always)]
    pub fn keeps_values_at(&self, j: usize) -> bool
        requires { j < length self.now.fresh }
        ensures { (i : ℕ) → result ≡ false → keeps_value (state_of self.now i j) ≡ false }
    {
        self.columns[j].keeps_values()
    }

    /// Whether the state of a group would keep a value as a text.
    #[inline(always)]
    pub fn keeps_text(&self, group: usize, j: usize, place: Place, value: &AnyValue) -> bool
        requires within { group < length self.now.groups }
        requires there { j < length self.now.fresh }
        ensures { result ≡ keeps_text place value.now (state_of self.now group j) }
    {
        self.columns[j].keeps_text(group, place, value)
    }

    /// Feeds the state of a group a value.
    #[inline(always)]
    pub fn feed(&mut self, group: usize, j: usize, place: Place, value: AnyValue)
        requires within { group < length self.old.groups }
        requires there { j < length self.old.fresh }
        requires taken { takes (state_of self.old group j) value ≡ true }
        requires few { seen (state_of self.old group j) + 1 < 2 ^ 32 }
        ensures { self.new
            ≡ with_state_of group j (after_value place value (state_of self.old group j)) self.old }
    {
        self.columns[j].feed(group, place, value);
    }

    /// Feeds the state of a group a value that is lent, and is no text that it would keep. It takes
    /// no memory.
    #[inline(always)]
    pub fn feed_lent(&mut self, group: usize, j: usize, place: Place, value: &AnyValue)
        requires within { group < length self.old.groups }
        requires there { j < length self.old.fresh }
        requires taken { takes (state_of self.old group j) value.now ≡ true }
        requires few { seen (state_of self.old group j) + 1 < 2 ^ 32 }
        requires plain { keeps_text place value.now (state_of self.old group j) ≡ false }
        ensures { self.new ≡ with_state_of group j
            (after_value place value.now (state_of self.old group j)) self.old }
    {
        self.columns[j].feed_lent(group, place, value);
    }

    /// Feeds the state of a group the values of rows that follow one another, which are lent, and
    /// among which is no text that it would keep. It takes no memory.
    pub fn feed_run(&mut self, group: usize, j: usize, chunk: u32, row: u32, values: &[AnyValue])
        requires within { group < length self.old.groups }
        requires there { j < length self.old.fresh }
        requires taken { list_all (λ v. takes (state_of self.old group j) v) values.now ≡ true }
        requires few { seen (state_of self.old group j) + length values.now < 2 ^ 32 }
        requires rows { row + length values.now ≤ 2 ^ 32 }
        requires plain { text_of_run chunk row values.now (state_of self.old group j) ≡ None }
        ensures { self.new ≡ with_state_of group j
            (after_run after_value chunk row values.now (state_of self.old group j)) self.old }
    {
        self.columns[j].feed_run(group, chunk, row, values);
    }

    /// What the state of a group gives, which is then as before any value.
    pub fn finalize(&mut self, group: usize, j: usize) -> Finalized
        requires within { group < length self.old.groups }
        requires there { j < length self.old.fresh }
        ensures given { result ≡ given (state_of self.old group j) }
        ensures states { self.new
            ≡ with_state_of group j (fresh (state_of self.old group j)) self.old }
    {
        self.columns[j].finalize(group)
    }

    /// Takes the states of a group of others over into those of a group, which are then as before
    /// any row. It takes no memory.
    pub fn join(&mut self, group: usize, other: &mut States, from: usize)
        requires within { group < length self.old.groups }
        requires from { from < length other.old.groups }
        requires fresh { other.old.fresh ≡ self.old.fresh }
        requires joinable { AreJoinable (states_in self.old group) (states_in other.old from) }
        ensures states { self.new ≡ with_states group
            (joined_states (states_in self.old group) (states_in other.old from)) self.old }
        ensures others { other.new ≡ with_states from other.old.fresh other.old }
    {
        join_all(&mut self.columns, group, &mut other.columns, from);
    }

    /// Reads what a row needs of the group at an index, if there is one. Nothing changes.
    #[inline(always)]
    pub fn look(&self, group: usize) -> usize {
        look_all(&self.columns, group)
    }
}
