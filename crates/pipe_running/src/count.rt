//! How many values there are, and how many rows.

ghost use Rattle.std.specs.Prelude.{◌≡◌, ◌+◌, true, false, refl};
ghost use Rattle.pipe_columns.specs.declared.data_type.DataType.TheVariants as dt;
ghost use Rattle.pipe_running.specs.declared.interface.Finalized.TheVariants as finalized;
ghost use Rattle.pipe_model.specs.Aggregate.{counted};
ghost use Rattle.pipe_running.specs.Transitions.{count_after, empty_count};
ghost use Rattle.pipe_running.specs.TransitionLaws.{count_by_one};

use crate::interface::{AggregateFn, Finalized};
use crate::lent::AggregateLent;
use pipe_columns::{AnyValue, DataType, Place};
use std::mem;

/// A running count of values, or of rows where nulls count too.
#[derive(Drop)]
pub struct CountAgg<const INCLUDE_NULL: bool> {
    count: u32,
}

impl<const INCLUDE_NULL: bool> CountAgg<INCLUDE_NULL> {
    /// The count of none.
    pub fn new() -> CountAgg<INCLUDE_NULL>
        ensures { result ≡ empty_count }
    {
        CountAgg { count: 0 }
    }
}

impl<const INCLUDE_NULL: bool> AggregateFn for CountAgg<INCLUDE_NULL> {
    ghost seen = { λ s. s.count };

    ghost takes = { λ s v. true };

    ghost alike = { λ a b. true };

    ghost after_value = { λ p v s. record { count = count_after INCLUDE_NULL v s.count } };

    ghost joined = { λ a b. record { count = a.count + b.count } };

    ghost given = { λ s. finalized.One (counted s.count) };

    ghost fresh = { λ s. empty_count };

    ghost is_physical = { λ s. false };

    ghost output_type = { λ s. dt.UInt32 };

    ghost seen_by_one = { λ p v s. count_by_one INCLUDE_NULL v s.count };

    ghost takes_alike = { λ p v w s. refl };

    fn has_physical_agg(&self) -> bool {
        false
    }

    fn pre_agg(&mut self, place: Place, value: AnyValue) {
        self.pre_agg_lent(place, &value);
    }

    fn dtype(&self) -> DataType {
        DataType::UInt32
    }

    fn combine(&mut self, other: CountAgg<INCLUDE_NULL>) {
        self.count += other.count;
    }

    fn finalize(&mut self) -> Finalized {
        let count = mem::replace(&mut self.count, 0);
        Finalized::One(AnyValue::Int(i128::from(count)))
    }
}

impl<const INCLUDE_NULL: bool> AggregateLent for CountAgg<INCLUDE_NULL> {
    fn pre_agg_lent(&mut self, _place: Place, value: &AnyValue) {
        if INCLUDE_NULL || !matches!(value, AnyValue::Null) {
            self.count += 1;
        }
    }
}
