//! Counts of groups.

ghost use Rattle.pipe_kinds.specs.CountStates.{count_room, counts_of, fresh_count};

use crate::kind_list::{KindList, both_of_kind};
use crate::state_list::{
    clear_states, give_at, join_at, push_state, release_states, reserve_states, room_left, take_at,
};
use crate::state_run::run_at;
use pipe_columns::{AnyValue, Place};
use pipe_running::{CountAgg, Finalized};
use std::alloc::AllocError;

/// The counts of groups: of values, or of rows.
#[derive(Drop)]
pub(crate) enum CountStates {
    Count(Vec<CountAgg<false>>),
    Len(Vec<CountAgg<true>>),
}

/// Calls a function with the vector of counts, of values or of rows.
macro_rules! each_count {
    ($kind:expr, $states:ident => $call:expr) => {
        match $kind {
            CountStates::Count($states) => $call,
            CountStates::Len($states) => $call,
        }
    };
}

impl KindList for CountStates {
    ghost states_of = { counts_of };

    ghost fresh_of = { fresh_count };

    ghost room_of = { count_room };

    fn reserve(&mut self, more: usize) -> Result<(), AllocError> {
        each_count!(self, states => reserve_states(states, more))
    }

    fn room(&self) -> usize {
        each_count!(self, states => room_left(states))
    }

    fn push_fresh(&mut self) {
        each_count!(self, states => push_state(states, CountAgg::new()))
    }

    fn clear(&mut self) {
        each_count!(self, states => clear_states(states))
    }

    fn release(&mut self) {
        each_count!(self, states => release_states(states))
    }

    #[inline(always)]
    fn feed(&mut self, at: usize, place: Place, value: AnyValue) {
        each_count!(self, states => take_at(states, at, place, value))
    }

    fn feed_run(&mut self, at: usize, chunk: u32, row: u32, values: &[AnyValue]) {
        each_count!(self, states => run_at(states, at, chunk, row, values))
    }

    fn finalize(&mut self, at: usize) -> Finalized {
        each_count!(self, states => give_at(states, at))
    }

    fn join(&mut self, at: usize, other: &mut CountStates, from: usize) {
        both_of_kind!(
            CountStates::Count, CountStates::Len;
            self, other, a, b => join_at(a, at, b, from, CountAgg::new())
        )
    }
}
