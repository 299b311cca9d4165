//! The sum of numbers, wrapped into their type.

ghost use Rattle.std.specs.Prelude.{◌≡◌, true, refl};
ghost use Rattle.pipe_columns.specs.declared.any_value.AnyValue.TheVariants as av;
ghost use Rattle.pipe_running.specs.declared.interface.Finalized.TheVariants as finalized;
ghost use Rattle.pipe_running.specs.Transitions.{empty_sum, sum_after, sum_state_after, sums_joined};
ghost use Rattle.pipe_running.specs.TransitionLaws.{none_by_one};

use crate::interface::{AggregateFn, Finalized};
use crate::lent::AggregateLent;
use pipe_columns::{AnyValue, DataType, Place};
use pipe_native::NumericNative;
use std::mem;

/// A running sum, wrapped into the type of its numbers, and whether a value came.
#[derive(Drop)]
pub struct SumAgg<K> {
    sum: K,
    came: bool,
}

/// A wrapped sum with one more value.
fn plus<K: NumericNative>(sum: K, value: &AnyValue) -> K
    ensures { result ≡ sum_after K.native value.now sum }
{
    match value {
        AnyValue::Null | AnyValue::Boolean(false) | AnyValue::Text(_) => sum,
        AnyValue::Boolean(true) => sum.plus(K::narrowed(1)),
        AnyValue::Int(number) => sum.plus(K::narrowed(*number)),
    }
}

impl<K: NumericNative> SumAgg<K> {
    /// The sum of no value.
    pub fn new() -> SumAgg<K>
        ensures { result ≡ empty_sum K.native }
    {
        SumAgg {
            sum: K::narrowed(0),
            came: false,
        }
    }
}

impl<K: NumericNative> AggregateFn for SumAgg<K> {
    ghost seen = { λ s. 0 };

    ghost takes = { λ s v. true };

    ghost alike = { λ a b. true };

    ghost after_value = { λ p v s. sum_state_after K.native v s };

    ghost joined = { λ a b. sums_joined K.native a b };

    ghost given = { λ s. finalized.One (av.Int (K.native.number s.sum)) };

    ghost fresh = { λ s. empty_sum K.native };

    ghost is_physical = { λ s. true };

    ghost output_type = { λ s. K.native.dtype };

    ghost seen_by_one = { λ p v s. none_by_one };

    ghost takes_alike = { λ p v w s. refl };

    fn has_physical_agg(&self) -> bool {
        true
    }

    fn pre_agg(&mut self, place: Place, value: AnyValue) {
        self.pre_agg_lent(place, &value);
    }

    fn dtype(&self) -> DataType {
        K::dtype()
    }

    fn combine(&mut self, other: SumAgg<K>) {
        self.sum = self.sum.plus(other.sum);
        self.came = self.came || other.came;
    }

    fn finalize(&mut self) -> Finalized {
        self.came = false;
        let sum = mem::replace(&mut self.sum, K::narrowed(0));
        Finalized::One(AnyValue::Int(sum.widened()))
    }
}

impl<K: NumericNative> AggregateLent for SumAgg<K> {
    fn pre_agg_lent(&mut self, _place: Place, value: &AnyValue) {
        self.sum = plus(self.sum, value);
        self.came = self.came || !matches!(value, AnyValue::Null);
    }
}
