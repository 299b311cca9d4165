//! The states of groups, all of one kind.

ghost use Rattle.std.specs.Prelude.{◌≡◌, [], IfSome};
ghost use Rattle.pipe_running.specs.States.{fresh};
ghost use Rattle.pipe_kinds.specs.Directions.{direction_in};
ghost use Rattle.pipe_kinds.specs.ExtremeStates.{fresh_number, numbers_of};
ghost use Rattle.pipe_kinds.specs.Kinds.{fresh_of, room_of, states_of};

use crate::count_states::CountStates;
use crate::direction::direction_of;
use crate::extreme_states::{ExtremeNumbers, ExtremeStates};
use crate::kind_list::{KindList, both_of_kind};
use crate::other_states::OtherStates;
use crate::sum_states::SumStates;
use pipe_columns::{AnyValue, Place};
use pipe_running::{AggregateFn, AggregateFunction, Finalized};
use std::alloc::{AllocError, Global};

/// The states of groups, all of one kind, each in a vector of that kind's own states.
#[derive(Drop)]
pub(crate) enum KindStates {
    Counts(CountStates),
    Sums(SumStates),
    Extremes(ExtremeStates),
    Others(OtherStates),
}

/// Calls a function with the states, of whichever kind they are.
macro_rules! each_kind {
    ($kind:expr, $states:ident => $call:expr) => {
        match $kind {
            KindStates::Counts($states) => $call,
            KindStates::Sums($states) => $call,
            KindStates::Extremes($states) => $call,
            KindStates::Others($states) => $call,
        }
    };
}

/// No minimums or maximums, in the direction of a running aggregate.
fn no_extremes(prototype: &AggregateFunction, numbers: ExtremeNumbers) -> KindStates
    ensures fresh { IfSome (direction_in prototype.now)
        (λ d. fresh_of result ≡ fresh_number d numbers) }
    ensures states { states_of result ≡ numbers_of numbers }
{
    KindStates::Extremes(ExtremeStates {
        direction: direction_of(prototype),
        numbers,
    })
}

impl KindStates {
    /// No states, of the kind of a running aggregate.
    pub(crate) fn new(alloc: Global, prototype: &AggregateFunction) -> KindStates
        ensures fresh { fresh_of result ≡ fresh prototype.now }
        ensures states { states_of result ≡ [] }
    {
        match prototype {
            AggregateFunction::Count(_) => KindStates::Counts(CountStates::Count(Vec::new(alloc))),
            AggregateFunction::Len(_) => KindStates::Counts(CountStates::Len(Vec::new(alloc))),
            AggregateFunction::SumU32(_) => KindStates::Sums(SumStates::U32(Vec::new(alloc))),
            AggregateFunction::SumU64(_) => KindStates::Sums(SumStates::U64(Vec::new(alloc))),
            AggregateFunction::SumI32(_) => KindStates::Sums(SumStates::I32(Vec::new(alloc))),
            AggregateFunction::SumI64(_) => KindStates::Sums(SumStates::I64(Vec::new(alloc))),
            AggregateFunction::Mean(_) => KindStates::Others(OtherStates::Mean(Vec::new(alloc))),
            AggregateFunction::Null(state) => {
                KindStates::Others(OtherStates::Null(state.0, Vec::new(alloc)))
            }
            AggregateFunction::First(state) => {
                KindStates::Others(OtherStates::First(state.dtype(), Vec::new(alloc)))
            }
            AggregateFunction::Last(state) => {
                KindStates::Others(OtherStates::Last(state.dtype(), Vec::new(alloc)))
            }
            AggregateFunction::MinMaxU8(_) => no_extremes(
                prototype,
                ExtremeNumbers::U8(Vec::new(alloc)),
            ),
            AggregateFunction::MinMaxU16(_) => no_extremes(
                prototype,
                ExtremeNumbers::U16(Vec::new(alloc)),
            ),
            AggregateFunction::MinMaxU32(_) => no_extremes(
                prototype,
                ExtremeNumbers::U32(Vec::new(alloc)),
            ),
            AggregateFunction::MinMaxU64(_) => no_extremes(
                prototype,
                ExtremeNumbers::U64(Vec::new(alloc)),
            ),
            AggregateFunction::MinMaxI8(_) => no_extremes(
                prototype,
                ExtremeNumbers::I8(Vec::new(alloc)),
            ),
            AggregateFunction::MinMaxI16(_) => no_extremes(
                prototype,
                ExtremeNumbers::I16(Vec::new(alloc)),
            ),
            AggregateFunction::MinMaxI32(_) => no_extremes(
                prototype,
                ExtremeNumbers::I32(Vec::new(alloc)),
            ),
            AggregateFunction::MinMaxI64(_) => no_extremes(
                prototype,
                ExtremeNumbers::I64(Vec::new(alloc)),
            ),
        }
    }
}

impl KindList for KindStates {
    ghost states_of = { states_of };

    ghost fresh_of = { fresh_of };

    ghost room_of = { room_of };

    fn reserve(&mut self, more: usize) -> Result<(), AllocError> {
        each_kind!(self, states => states.reserve(more))
    }

    fn room(&self) -> usize {
        each_kind!(self, states => states.room())
    }

    fn push_fresh(&mut self) {
        each_kind!(self, states => states.push_fresh())
    }

    fn clear(&mut self) {
        each_kind!(self, states => states.clear())
    }

    fn release(&mut self) {
        each_kind!(self, states => states.release())
    }

    #[inline(always)]
    fn feed(&mut self, at: usize, place: Place, value: AnyValue) {
        each_kind!(self, states => states.feed(at, place, value))
    }

    fn feed_run(&mut self, at: usize, chunk: u32, row: u32, values: &[AnyValue]) {
        each_kind!(self, states => states.feed_run(at, chunk, row, values))
    }

    fn finalize(&mut self, at: usize) -> Finalized {
        each_kind!(self, states => states.finalize(at))
    }

    fn join(&mut self, at: usize, other: &mut KindStates, from: usize) {
        both_of_kind!(
            KindStates::Counts, KindStates::Sums, KindStates::Extremes, KindStates::Others;
            self, other, a, b => a.join(at, b, from)
        )
    }

    #[inline(always)]
    fn look(&self, at: usize) -> usize {
        each_kind!(self, states => states.look(at))
    }
}
