//! What running aggregates give, put into columns.

ghost use Rattle.std.specs.Prelude.{◌≡◌, ◌+◌, ◌<◌, ◌⊎◌, [], ℕ, All, drop, false, IfOk, length, map, nat_eq};
ghost use Rattle.std.specs.List.{IsDistinct};
ghost use Rattle.pipe_kinds.specs.ManyStates.{states_in, with_states};
ghost use Rattle.pipe_running.specs.GroupStates.{fresh_states, given_all};
ghost use Rattle.pipe_columns.specs.Frame.{columns_from};
ghost use Rattle.pipe_groups.specs.Given.{CanGive};
ghost use Rattle.pipe_groups.specs.Groups.{group_of, HasGroups};
ghost use Rattle.pipe_groups.specs.Columns.{columns_of_unfinished, HaveRoom, with_rows, with_values};

use crate::groups::Groups;
use crate::unfinished::{Unfinished, give_at, opened};
use pipe_kinds::States;
use std::alloc::AllocError;

/// Puts what the running aggregates of one group give below the values of the columns.
fn give_group(states: &mut States, index: usize, columns: &mut [Unfinished])
    requires within { index < length states.old.groups }
    requires fits { length (given_all (states_in states.old index)) ≡ length columns.old }
    requires room { HaveRoom 1 columns.old }
    ensures columns { columns_of_unfinished columns.new
        ≡ with_values (given_all (states_in states.old index)) (columns_of_unfinished columns.old) }
    ensures room { (n : ℕ) → HaveRoom (n + 1) columns.old → HaveRoom n columns.new }
    ensures states { states.new
        ≡ with_states index (fresh_states (states_in states.old index)) states.old }
{
    let mut at = 0;
    for j in 0..states.width() {
        at = give_at(columns, at, states.finalize(index, j));
    }
}

/// Puts what the running aggregates of groups give below the values of the columns, a row for each
/// group.
fn give_groups(states: &mut States, taken: &[usize], columns: &mut [Unfinished])
    requires within { All (λ i. i < length states.old.groups) taken.now }
    requires once { IsDistinct nat_eq taken.now }
    requires fits { All (λ i. length (given_all (states_in states.old i)) ≡ length columns.old)
        taken.now }
    requires room { HaveRoom (length taken.now) columns.old }
    ensures columns { columns_of_unfinished columns.new ≡ with_rows
        (map (λ i. given_all (states_in states.old i)) taken.now) (columns_of_unfinished columns.old) }
    ensures like { states.new.fresh ≡ states.old.fresh }
    ensures count { length states.new.groups ≡ length states.old.groups }
    ensures each { (k : ℕ) → (states_in states.new k ≡ states_in states.old k)
        ⊎ (states_in states.new k ≡ fresh_states (states_in states.old k)) }
    ensures others { (k : ℕ) → All (λ i. nat_eq i k ≡ false) taken.now
        → states_in states.new k ≡ states_in states.old k }
{
    for index in taken {
        give_group(states, *index, columns);
    }
}

impl Groups {
    /// Columns for what the running aggregates give, with memory for so many groups.
    pub(crate) fn given_columns(&self, height: usize) -> Result<Vec<Unfinished>, AllocError>
        ensures columns { IfOk result (λ v. columns_of_unfinished v.items ≡ columns_from 0
            (drop (length self.now.shape.key_types) self.now.shape.fields) []) }
        ensures room { IfOk result (λ v. HaveRoom height v.items) }
    {
        let fields = &self.fields.fields()[self.key_types.len()..];
        let columns = opened(*self.entries.allocator(), fields, height)?;
        Ok(columns)
    }

    /// Puts what the running aggregates of some groups give below the values of the columns. The
    /// other groups stay.
    pub(crate) fn give_states(&mut self, taken: &[usize], columns: &mut Vec<Unfinished>)
        requires within { All (λ i. i < length self.old.groups) taken.now }
        requires once { IsDistinct nat_eq taken.now }
        requires gives { All (CanGive self.old.shape) (map (group_of self.old.groups) taken.now) }
        requires columns { length columns.old.items
            ≡ length (drop (length self.old.shape.key_types) self.old.shape.fields) }
        requires room { HaveRoom (length taken.now) columns.old.items }
        ensures columns { columns_of_unfinished columns.new.items ≡ with_rows
            (map (λ i. given_all (group_of self.old.groups i).states) taken.now)
            (columns_of_unfinished columns.old.items) }
        ensures shape { self.new.shape ≡ self.old.shape }
        ensures count { length self.new.groups ≡ length self.old.groups }
        ensures others { (k : ℕ) → All (λ i. nat_eq i k ≡ false) taken.now
            → group_of self.new.groups k ≡ group_of self.old.groups k }
    {
        give_groups(&mut self.states, taken, columns);
    }

    /// Lets all groups go, and gives their memory back.
    pub(crate) fn release(&mut self)
        ensures { HasGroups self.old self.new [] }
    {
        let alloc = *self.entries.allocator();
        self.bytes = Vec::new(alloc);
        self.entries = Vec::new(alloc);
        self.states.release();
        self.held = 0;
    }
}
