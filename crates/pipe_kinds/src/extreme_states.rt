//! Minimums and maximums of groups.

ghost use Rattle.pipe_kinds.specs.ExtremeStates.{extreme_room, extremes_of, fresh_extreme};

use crate::kind_list::{KindList, both_of_kind};
use crate::state_list::{
    clear_states, give_at, join_at, push_state, release_states, reserve_states, room_left, take_at,
};
use crate::state_run::run_at;
use pipe_columns::{AnyValue, Place};
use pipe_running::{Direction, Finalized, MinMaxAgg};
use std::alloc::AllocError;

/// The minimums or maximums of groups, of one number type.
#[derive(Drop)]
pub(crate) enum ExtremeNumbers {
    U8(Vec<MinMaxAgg<u8>>),
    U16(Vec<MinMaxAgg<u16>>),
    U32(Vec<MinMaxAgg<u32>>),
    U64(Vec<MinMaxAgg<u64>>),
    I8(Vec<MinMaxAgg<i8>>),
    I16(Vec<MinMaxAgg<i16>>),
    I32(Vec<MinMaxAgg<i32>>),
    I64(Vec<MinMaxAgg<i64>>),
}

/// The minimums of groups, or the maximums, which begin in the same direction.
#[derive(Drop)]
pub(crate) struct ExtremeStates {
    pub(crate) direction: Direction,
    pub(crate) numbers: ExtremeNumbers,
}

/// Calls a function with the vector of minimums or maximums, of whichever number type.
macro_rules! each_extreme {
    ($kind:expr, $states:ident => $call:expr) => {
        match $kind {
            ExtremeNumbers::U8($states) => $call,
            ExtremeNumbers::U16($states) => $call,
            ExtremeNumbers::U32($states) => $call,
            ExtremeNumbers::U64($states) => $call,
            ExtremeNumbers::I8($states) => $call,
            ExtremeNumbers::I16($states) => $call,
            ExtremeNumbers::I32($states) => $call,
            ExtremeNumbers::I64($states) => $call,
        }
    };
}

impl KindList for ExtremeStates {
    ghost states_of = { extremes_of };

    ghost fresh_of = { fresh_extreme };

    ghost room_of = { extreme_room };

    fn reserve(&mut self, more: usize) -> Result<(), AllocError> {
        each_extreme!(&mut self.numbers, states => reserve_states(states, more))
    }

    fn room(&self) -> usize {
        each_extreme!(&self.numbers, states => room_left(states))
    }

    fn push_fresh(&mut self) {
        let new = self.direction;
        each_extreme!(&mut self.numbers, states => push_state(states, MinMaxAgg::new(new)))
    }

    fn clear(&mut self) {
        each_extreme!(&mut self.numbers, states => clear_states(states))
    }

    fn release(&mut self) {
        each_extreme!(&mut self.numbers, states => release_states(states))
    }

    #[inline(always)]
    fn feed(&mut self, at: usize, place: Place, value: AnyValue) {
        each_extreme!(&mut self.numbers, states => take_at(states, at, place, value))
    }

    fn feed_run(&mut self, at: usize, chunk: u32, row: u32, values: &[AnyValue]) {
        each_extreme!(&mut self.numbers, states => run_at(states, at, chunk, row, values))
    }

    fn finalize(&mut self, at: usize) -> Finalized {
        each_extreme!(&mut self.numbers, states => give_at(states, at))
    }

    fn join(&mut self, at: usize, other: &mut ExtremeStates, from: usize) {
        let direction = other.direction;
        let others = &mut other.numbers;
        both_of_kind!(
            ExtremeNumbers::U8, ExtremeNumbers::U16, ExtremeNumbers::U32, ExtremeNumbers::U64,
            ExtremeNumbers::I8, ExtremeNumbers::I16, ExtremeNumbers::I32, ExtremeNumbers::I64;
            &mut self.numbers, others, a, b => join_at(a, at, b, from, MinMaxAgg::new(direction))
        )
    }
}
