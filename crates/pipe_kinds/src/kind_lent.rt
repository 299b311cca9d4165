//! States of one kind that are fed values which are lent: only a text that is held takes memory.

ghost use Rattle.std.specs.Prelude.{◌≡◌, ◌+◌, ◌<◌, ◌^◌, false, length, slice_set, true};
ghost use Rattle.pipe_running.specs.Lent.{keeps_text};
ghost use Rattle.pipe_running.specs.States.{after_value, seen, takes};
ghost use Rattle.pipe_kinds.specs.Columns.{room_in, state_at};
ghost use Rattle.pipe_kinds.specs.Keeping.{plain_value};
ghost use Rattle.pipe_kinds.specs.Kinds.{fresh_of, is_held, room_of, states_of};
ghost use Rattle.pipe_kinds.specs.OtherStates.{fresh_other, hold_values, other_room, others_of};

use crate::kind::KindStates;
use crate::kind_list::KindList;
use crate::other_states::OtherStates;
use pipe_columns::{AnyValue, Place};
use pipe_running::AggregateFunction;

/// What serves as well as a value that is lent, where none is kept: it takes no memory.
#[inline(always)]
pub(crate) fn plain_value(value: &AnyValue) -> AnyValue
    ensures { result ≡ plain_value value.now }
{
    match value {
        AnyValue::Null => AnyValue::Null,
        AnyValue::Boolean(truth) => AnyValue::Boolean(*truth),
        AnyValue::Int(number) => AnyValue::Int(*number),
        AnyValue::Text(_) => AnyValue::Boolean(false),
    }
}

/// Feeds the running aggregate at an index a value that is lent, and is no text that it would keep.
fn lend_at(states: &mut Vec<AggregateFunction>, at: usize, place: Place, value: &AnyValue)
    requires within { at < length states.old.items }
    requires taken { takes (state_at states.old.items at) value.now ≡ true }
    requires few { seen (state_at states.old.items at) + 1 < 2 ^ 32 }
    requires plain { keeps_text place value.now (state_at states.old.items at) ≡ false }
    ensures states { states.new.items ≡ slice_set states.old.items at
        (after_value place value.now (state_at states.old.items at)) }
    ensures room { room_in states.new ≡ room_in states.old }
{
    let state = &mut states[at];
    state.pre_agg_lent(place, value);
}

impl OtherStates {
    /// Whether the states keep values themselves.
    #[inline(always)]
    pub(crate) fn keeps_values(&self) -> bool
        ensures { result ≡ hold_values self.now }
    {
        matches!(self, OtherStates::First(_, _) | OtherStates::Last(_, _))
    }

    /// Whether the state at an index would keep a value as a text.
    #[inline(always)]
    pub(crate) fn keeps_text(&self, at: usize, place: Place, value: &AnyValue) -> bool
        requires { at < length (others_of self.now) }
        ensures { result ≡ keeps_text place value.now (state_at (others_of self.now) at) }
    {
        match self {
            OtherStates::First(_, states) => states[at].keeps_text(place, value),
            OtherStates::Last(_, states) => states[at].keeps_text(place, value),
            _ => false,
        }
    }

    /// Feeds the state at an index a value that is lent, and is no text that it would keep.
    #[inline(always)]
    pub(crate) fn feed_lent(&mut self, at: usize, place: Place, value: &AnyValue)
        requires within { at < length (others_of self.old) }
        requires taken { takes (state_at (others_of self.old) at) value.now ≡ true }
        requires few { seen (state_at (others_of self.old) at) + 1 < 2 ^ 32 }
        requires plain { keeps_text place value.now (state_at (others_of self.old) at) ≡ false }
        ensures states { others_of self.new ≡ slice_set (others_of self.old) at
            (after_value place value.now (state_at (others_of self.old) at)) }
        ensures fresh { fresh_other self.new ≡ fresh_other self.old }
        ensures room { other_room self.new ≡ other_room self.old }
    {
        match self {
            OtherStates::First(_, states) => lend_at(states, at, place, value),
            OtherStates::Last(_, states) => lend_at(states, at, place, value),
            _ => self.feed(at, place, plain_value(value)),
        }
    }
}

impl KindStates {
    /// Whether the states keep values themselves.
    #[inline(always)]
    pub(crate) fn keeps_values(&self) -> bool
        ensures { result ≡ is_held self.now }
    {
        match self {
            KindStates::Others(states) => states.keeps_values(),
            _ => false,
        }
    }

    /// Whether the state at an index would keep a value as a text.
    #[inline(always)]
    pub(crate) fn keeps_text(&self, at: usize, place: Place, value: &AnyValue) -> bool
        requires { at < length (states_of self.now) }
        ensures { result ≡ keeps_text place value.now (state_at (states_of self.now) at) }
    {
        match self {
            KindStates::Others(states) => states.keeps_text(at, place, value),
            _ => false,
        }
    }

    /// Feeds the state at an index a value that is lent, and is no text that it would keep.
    #[inline(always)]
    pub(crate) fn feed_lent(&mut self, at: usize, place: Place, value: &AnyValue)
        requires within { at < length (states_of self.old) }
        requires taken { takes (state_at (states_of self.old) at) value.now ≡ true }
        requires few { seen (state_at (states_of self.old) at) + 1 < 2 ^ 32 }
        requires plain { keeps_text place value.now (state_at (states_of self.old) at) ≡ false }
        ensures states { states_of self.new ≡ slice_set (states_of self.old) at
            (after_value place value.now (state_at (states_of self.old) at)) }
        ensures fresh { fresh_of self.new ≡ fresh_of self.old }
        ensures room { room_of self.new ≡ room_of self.old }
    {
        match self {
            KindStates::Others(states) => states.feed_lent(at, place, value),
            _ => self.feed(at, place, plain_value(value)),
        }
    }
}
