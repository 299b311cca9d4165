//! The first value by place.

ghost use Rattle.std.specs.Prelude.{◌≡◌, true, false, refl};

use crate::interface::{AggregateFn, Finalized};
use crate::lent::plain_copy;
use pipe_columns::{AnyValue, DataType, Place};
use std::marker::Model;
use std::mem;

/// A running first value by place: the value at the least place so far.
#[derive(Drop)]
pub struct FirstAgg {
    place: Place,
    dtype: DataType,
    came: bool,
    value: AnyValue,
}

impl Model for FirstAgg {
    ghost use Rattle.pipe_running.specs.Held.{HeldState, entry_if};

    ghost Value = { HeldState };

    ghost view = { λ s. record { dtype = s.dtype; held = entry_if s.came s.place s.value } };
}

impl FirstAgg {
    ghost use Rattle.std.specs.Prelude.{◌&&◌};
    ghost use Rattle.pipe_running.specs.Held.{is_earlier, is_text};
    ghost use Rattle.pipe_running.specs.Transitions.{empty_first, first_after};

    /// The first of no value, for values of a type.
    pub fn new(dtype: DataType) -> FirstAgg
        ensures { result ≡ empty_first dtype }
    {
        FirstAgg {
            place: Place { chunk: 0, row: 0 },
            dtype,
            came: false,
            value: AnyValue::Null,
        }
    }

    /// The first of no value, for values of the same type.
    pub(crate) fn split(&self) -> FirstAgg
        ensures { result ≡ empty_first self.now.dtype }
    {
        FirstAgg::new(self.dtype)
    }

    /// Whether a value at a place would be held.
    pub(crate) fn would_hold(&self, place: Place) -> bool
        ensures { result ≡ is_earlier place self.now.held }
    {
        !self.came || place < self.place
    }

    /// Takes one more value that is lent, and is no text that would be held.
    pub(crate) fn pre_agg_lent(&mut self, place: Place, value: &AnyValue)
        requires { (is_text value.now && is_earlier place self.old.held) ≡ false }
        ensures { self.new ≡ first_after place value.now self.old }
    {
        if self.would_hold(place) {
            self.pre_agg(place, plain_copy(value));
        }
    }
}

impl AggregateFn for FirstAgg {
    ghost use Rattle.pipe_running.specs.declared.interface.Finalized.TheVariants as finalized;
    ghost use Rattle.pipe_model.specs.Aggregate.{entry_value};
    ghost use Rattle.pipe_running.specs.Transitions.{empty_first, first_after, firsts_joined};
    ghost use Rattle.pipe_running.specs.TransitionLaws.{none_by_one};

    ghost seen = { λ s. 0 };

    ghost takes = { λ s v. true };

    ghost alike = { λ a b. true };

    ghost after_value = { λ p v s. first_after p v s };

    ghost joined = { λ a b. firsts_joined a b };

    ghost given = { λ s. finalized.One (entry_value s.held) };

    ghost fresh = { λ s. empty_first s.dtype };

    ghost is_physical = { λ s. false };

    ghost output_type = { λ s. s.dtype };

    ghost seen_by_one = { λ p v s. none_by_one };

    ghost takes_alike = { λ p v w s. refl };

    fn has_physical_agg(&self) -> bool {
        false
    }

    fn pre_agg(&mut self, place: Place, value: AnyValue) {
        if self.would_hold(place) {
            self.place = place;
            self.came = true;
            self.value = value;
        }
    }

    fn dtype(&self) -> DataType {
        self.dtype
    }

    fn combine(&mut self, other: FirstAgg) {
        if other.came {
            self.pre_agg(other.place, other.value);
        }
    }

    fn finalize(&mut self) -> Finalized {
        let value = mem::replace(&mut self.value, AnyValue::Null);
        if mem::replace(&mut self.came, false) {
            Finalized::One(value)
        } else {
            Finalized::One(AnyValue::Null)
        }
    }
}
