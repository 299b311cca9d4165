//! The exact sum of numbers, and how many there are.

ghost use Rattle.std.specs.Prelude.{◌≡◌, true, false, refl};
ghost use Rattle.pipe_model.specs.Aggregate.{addend};

use crate::interface::{AggregateFn, Finalized};
use crate::lent::AggregateLent;
use pipe_columns::{AnyValue, DataType, Place};
use pipe_native::NumericNative;
use std::marker::Model;
use std::mem;

/// A running mean: the exact sum of the values that are no null, and their number.
#[derive(Drop)]
pub struct MeanAgg<K: NumericNative> {
    sum: K,
    count: u32,
}

impl<K: NumericNative> Model for MeanAgg<K> {
    ghost use Rattle.pipe_running.specs.Mean.{IsExact, MeanState};

    ghost Value = { MeanState };

    ghost view = { λ s. record { sum = K.native.number s.sum; count = s.count } };

    ghost invariant = { λ s. IsExact (K.native.number s.sum) s.count };
}

/// The number that a value adds to a sum.
fn number_in(value: &AnyValue) -> i128
    ensures { result ≡ addend value.now }
{
    match value {
        AnyValue::Null | AnyValue::Boolean(false) | AnyValue::Text(_) => 0,
        AnyValue::Boolean(true) => 1,
        AnyValue::Int(number) => *number,
    }
}

impl MeanAgg<i128> {
    ghost use Rattle.pipe_running.specs.Transitions.{empty_mean};

    /// The mean of no value.
    pub fn new() -> MeanAgg<i128>
        ensures { result ≡ empty_mean }
    {
        MeanAgg { sum: 0, count: 0 }
    }
}

impl AggregateFn for MeanAgg<i128> {
    ghost use Rattle.pipe_columns.specs.declared.data_type.DataType.TheVariants as dt;
    ghost use Rattle.pipe_running.specs.Mean.{is_short};
    ghost use Rattle.pipe_running.specs.Transitions.{empty_mean, mean_after, mean_given, means_joined};
    ghost use Rattle.pipe_running.specs.TransitionLaws.{count_by_one};

    ghost seen = { λ s. s.count };

    ghost takes = { λ s v. is_short v };

    ghost alike = { λ a b. true };

    ghost after_value = { λ p v s. mean_after v s };

    ghost joined = { λ a b. means_joined a b };

    ghost given = { mean_given };

    ghost fresh = { λ s. empty_mean };

    ghost is_physical = { λ s. true };

    ghost output_type = { λ s. dt.Int128 };

    ghost seen_by_one = { λ p v s. count_by_one false v s.count };

    ghost takes_alike = { λ p v w s. refl };

    fn has_physical_agg(&self) -> bool {
        true
    }

    fn pre_agg(&mut self, place: Place, value: AnyValue) {
        self.pre_agg_lent(place, &value);
    }

    fn dtype(&self) -> DataType {
        DataType::Int128
    }

    fn combine(&mut self, other: MeanAgg<i128>) {
        self.sum += other.sum;
        self.count += other.count;
    }

    fn finalize(&mut self) -> Finalized {
        let sum = mem::replace(&mut self.sum, 0);
        let count = mem::replace(&mut self.count, 0);
        let sum = if count == 0 {
            AnyValue::Null
        } else {
            AnyValue::Int(sum)
        };
        Finalized::Pair(sum, AnyValue::Int(i128::from(count)))
    }
}

impl AggregateLent for MeanAgg<i128> {
    fn pre_agg_lent(&mut self, _place: Place, value: &AnyValue) {
        if !matches!(value, AnyValue::Null) {
            self.sum += number_in(value);
            self.count += 1;
        }
    }
}
