//! Means, firsts and lasts of groups, and what is always null.

ghost use Rattle.std.specs.Prelude.{◌≡◌};
ghost use Rattle.pipe_running.specs.declared.function.AggregateFunction.TheVariants as function;
ghost use Rattle.pipe_running.specs.Transitions.{empty_first, empty_last};
ghost use Rattle.pipe_kinds.specs.OtherStates.{fresh_other, other_room, others_of};

use crate::kind_list::KindList;
use crate::state_list::{
    clear_states, give_at, join_at, look_at, push_state, release_states, reserve_states, room_left,
    take_at,
};
use crate::state_run::{lend_run_at, run_at};
use pipe_columns::{AnyValue, DataType, Place};
use pipe_running::{AggregateFunction, Finalized, FirstAgg, LastAgg, MeanAgg, NullAgg};
use std::alloc::AllocError;

/// The means, firsts or lasts of groups, or what is always null. A first or a last is kept as it
/// is, since it holds a value.
#[derive(Drop)]
pub(crate) enum OtherStates {
    Mean(Vec<MeanAgg<i128>>),
    Null(DataType, Vec<NullAgg>),
    First(DataType, Vec<AggregateFunction>),
    Last(DataType, Vec<AggregateFunction>),
}

/// Calls a function with the vector of states, of whichever kind they are.
macro_rules! each_other {
    ($kind:expr, $states:ident => $call:expr) => {
        match $kind {
            OtherStates::Mean($states) => $call,
            OtherStates::Null(_, $states) => $call,
            OtherStates::First(_, $states) => $call,
            OtherStates::Last(_, $states) => $call,
        }
    };
}

/// The first of no value, for values of a type.
fn no_first(dtype: DataType) -> AggregateFunction
    ensures { result ≡ function.First (empty_first dtype) }
{
    AggregateFunction::First(FirstAgg::new(dtype))
}

/// The last of no value, for values of a type.
fn no_last(dtype: DataType) -> AggregateFunction
    ensures { result ≡ function.Last (empty_last dtype) }
{
    AggregateFunction::Last(LastAgg::new(dtype))
}

impl KindList for OtherStates {
    ghost states_of = { others_of };

    ghost fresh_of = { fresh_other };

    ghost room_of = { other_room };

    fn reserve(&mut self, more: usize) -> Result<(), AllocError> {
        each_other!(self, states => reserve_states(states, more))
    }

    fn room(&self) -> usize {
        each_other!(self, states => room_left(states))
    }

    fn push_fresh(&mut self) {
        match self {
            OtherStates::Mean(states) => push_state(states, MeanAgg::new()),
            OtherStates::Null(dtype, states) => push_state(states, NullAgg::new(*dtype)),
            OtherStates::First(dtype, states) => push_state(states, no_first(*dtype)),
            OtherStates::Last(dtype, states) => push_state(states, no_last(*dtype)),
        }
    }

    fn clear(&mut self) {
        each_other!(self, states => clear_states(states))
    }

    fn release(&mut self) {
        each_other!(self, states => release_states(states))
    }

    #[inline(always)]
    fn feed(&mut self, at: usize, place: Place, value: AnyValue) {
        each_other!(self, states => take_at(states, at, place, value))
    }

    fn feed_run(&mut self, at: usize, chunk: u32, row: u32, values: &[AnyValue]) {
        match self {
            OtherStates::Mean(states) => run_at(states, at, chunk, row, values),
            OtherStates::Null(_, states) => run_at(states, at, chunk, row, values),
            OtherStates::First(_, states) => lend_run_at(states, at, chunk, row, values),
            OtherStates::Last(_, states) => lend_run_at(states, at, chunk, row, values),
        }
    }

    fn finalize(&mut self, at: usize) -> Finalized {
        each_other!(self, states => give_at(states, at))
    }

    fn join(&mut self, at: usize, other: &mut OtherStates, from: usize) {
        match self {
            OtherStates::Mean(a) => match other {
                OtherStates::Mean(b) => join_at(a, at, b, from, MeanAgg::new()),
                _ => unreachable!(),
            },
            OtherStates::Null(_, a) => match other {
                OtherStates::Null(dtype, b) => join_at(a, at, b, from, NullAgg::new(*dtype)),
                _ => unreachable!(),
            },
            OtherStates::First(_, a) => match other {
                OtherStates::First(dtype, b) => join_at(a, at, b, from, no_first(*dtype)),
                _ => unreachable!(),
            },
            OtherStates::Last(_, a) => match other {
                OtherStates::Last(dtype, b) => join_at(a, at, b, from, no_last(*dtype)),
                _ => unreachable!(),
            },
        }
    }

    #[inline(always)]
    fn look(&self, at: usize) -> usize {
        match self {
            OtherStates::First(_, states) => look_at(states, at),
            OtherStates::Last(_, states) => look_at(states, at),
            _ => 0,
        }
    }
}
