//! The least or the greatest value.

ghost use Rattle.std.specs.Prelude.{◌≡◌, true, refl};
ghost use Rattle.std.specs.Ordering.{is_lt};
ghost use Rattle.pipe_columns.specs.AnyValue.{fits};
ghost use Rattle.pipe_running.specs.declared.interface.Finalized.TheVariants as finalized;

use crate::interface::{AggregateFn, Finalized};
use crate::lent::AggregateLent;
use pipe_columns::{AnyValue, DataType, Place};
use pipe_native::NumericNative;
use std::cmp::Ordering;

/// Whether the least or the greatest value is wanted.
#[derive(Clone, Copy, Debug, PartialEq, Eq)]
pub enum Direction {
    Min,
    Max,
}

/// A running minimum or maximum of numbers of a type.
#[derive(Drop)]
pub struct MinMaxAgg<K> {
    direction: Direction,
    extreme: Option<K>,
}

impl<K: NumericNative> MinMaxAgg<K> {
    ghost use Rattle.std.specs.Prelude.{Some};
    ghost use Rattle.pipe_running.specs.Pick.{nearer};
    ghost use Rattle.pipe_running.specs.Transitions.{empty_extreme, native_order};

    /// The minimum or maximum of no value.
    pub fn new(direction: Direction) -> MinMaxAgg<K>
        ensures { result ≡ empty_extreme direction }
    {
        MinMaxAgg {
            direction,
            extreme: None,
        }
    }

    /// The minimum or maximum of no value, in the same direction.
    pub(crate) fn split(&self) -> MinMaxAgg<K>
        ensures { result ≡ empty_extreme self.now.direction }
    {
        MinMaxAgg::new(self.direction)
    }

    /// Whether a number is nearer to the extreme than one that is held.
    fn is_before(&self, number: K, held: K) -> bool
        ensures { result ≡ is_lt (native_order K.native self.now.direction number held) }
    {
        match self.direction {
            Direction::Min => number.compare(held) == Ordering::Less,
            Direction::Max => held.compare(number) == Ordering::Less,
        }
    }

    /// Takes one more number.
    fn take(&mut self, number: K)
        ensures direction { self.new.direction ≡ self.old.direction }
        ensures extreme { self.new.extreme
            ≡ Some (nearer (native_order K.native self.old.direction) number self.old.extreme) }
    {
        let stays = match self.extreme {
            Some(held) => !self.is_before(number, held),
            None => false,
        };
        if !stays {
            self.extreme = Some(number);
        }
    }
}

impl<K: NumericNative> AggregateFn for MinMaxAgg<K> {
    ghost use Rattle.pipe_running.specs.Transitions.{empty_extreme, extreme_after, extreme_value, extremes_joined, same_direction};
    ghost use Rattle.pipe_running.specs.TransitionLaws.{none_by_one};

    ghost seen = { λ s. 0 };

    ghost takes = { λ s v. fits v K.native.dtype };

    ghost alike = { λ a b. same_direction a.direction b.direction };

    ghost after_value = { λ p v s. extreme_after K.native v s };

    ghost joined = { λ a b. extremes_joined K.native a b };

    ghost given = { λ s. finalized.One (extreme_value K.native s.extreme) };

    ghost fresh = { λ s. empty_extreme s.direction };

    ghost is_physical = { λ s. true };

    ghost output_type = { λ s. K.native.dtype };

    ghost seen_by_one = { λ p v s. none_by_one };

    ghost takes_alike = { λ p v w s. refl };

    fn has_physical_agg(&self) -> bool {
        true
    }

    fn pre_agg(&mut self, place: Place, value: AnyValue) {
        self.pre_agg_lent(place, &value);
    }

    fn dtype(&self) -> DataType {
        K::dtype()
    }

    fn combine(&mut self, other: MinMaxAgg<K>) {
        if let Some(number) = other.extreme {
            self.take(number);
        }
    }

    fn finalize(&mut self) -> Finalized {
        match self.extreme.take() {
            Some(number) => Finalized::One(AnyValue::Int(number.widened())),
            None => Finalized::One(AnyValue::Null),
        }
    }
}

impl<K: NumericNative> AggregateLent for MinMaxAgg<K> {
    fn pre_agg_lent(&mut self, _place: Place, value: &AnyValue) {
        if let AnyValue::Int(number) = value {
            self.take(K::narrowed(*number));
        }
    }
}
