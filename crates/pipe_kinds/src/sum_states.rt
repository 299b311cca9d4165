//! Sums of groups.

ghost use Rattle.pipe_kinds.specs.SumStates.{fresh_sum, sum_room, sums_of};

use crate::kind_list::{KindList, both_of_kind};
use crate::state_list::{
    clear_states, give_at, join_at, push_state, release_states, reserve_states, room_left, take_at,
};
use crate::state_run::run_at;
use pipe_columns::{AnyValue, Place};
use pipe_running::{Finalized, SumAgg};
use std::alloc::AllocError;

/// The sums of groups, of one number type.
#[derive(Drop)]
pub(crate) enum SumStates {
    U32(Vec<SumAgg<u32>>),
    U64(Vec<SumAgg<u64>>),
    I32(Vec<SumAgg<i32>>),
    I64(Vec<SumAgg<i64>>),
}

/// Calls a function with the vector of sums, of whichever number type.
macro_rules! each_sum {
    ($kind:expr, $states:ident => $call:expr) => {
        match $kind {
            SumStates::U32($states) => $call,
            SumStates::U64($states) => $call,
            SumStates::I32($states) => $call,
            SumStates::I64($states) => $call,
        }
    };
}

impl KindList for SumStates {
    ghost states_of = { sums_of };

    ghost fresh_of = { fresh_sum };

    ghost room_of = { sum_room };

    fn reserve(&mut self, more: usize) -> Result<(), AllocError> {
        each_sum!(self, states => reserve_states(states, more))
    }

    fn room(&self) -> usize {
        each_sum!(self, states => room_left(states))
    }

    fn push_fresh(&mut self) {
        each_sum!(self, states => push_state(states, SumAgg::new()))
    }

    fn clear(&mut self) {
        each_sum!(self, states => clear_states(states))
    }

    fn release(&mut self) {
        each_sum!(self, states => release_states(states))
    }

    #[inline(always)]
    fn feed(&mut self, at: usize, place: Place, value: AnyValue) {
        each_sum!(self, states => take_at(states, at, place, value))
    }

    fn feed_run(&mut self, at: usize, chunk: u32, row: u32, values: &[AnyValue]) {
        each_sum!(self, states => run_at(states, at, chunk, row, values))
    }

    fn finalize(&mut self, at: usize) -> Finalized {
        each_sum!(self, states => give_at(states, at))
    }

    fn join(&mut self, at: usize, other: &mut SumStates, from: usize) {
        both_of_kind!(
            SumStates::U32, SumStates::U64, SumStates::I32, SumStates::I64;
            self, other, a, b => join_at(a, at, b, from, SumAgg::new())
        )
    }
}
