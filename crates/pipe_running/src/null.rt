//! An aggregate that keeps nothing and gives null.

ghost use Rattle.std.specs.Prelude.{◌≡◌, true, false, refl};
ghost use Rattle.pipe_columns.specs.declared.any_value.AnyValue.TheVariants as av;
ghost use Rattle.pipe_running.specs.declared.interface.Finalized.TheVariants as finalized;
ghost use Rattle.pipe_running.specs.TransitionLaws.{none_by_one};

use crate::interface::{AggregateFn, Finalized};
use crate::lent::AggregateLent;
use pipe_columns::{AnyValue, DataType, Place};

/// An aggregate that is null whatever the values, of the type that it was made with.
#[derive(Drop)]
pub struct NullAgg(pub DataType);

impl NullAgg {
    /// An aggregate that gives a null of a type.
    pub fn new(dtype: DataType) -> NullAgg
        ensures { result.0 ≡ dtype }
    {
        NullAgg(dtype)
    }
}

impl AggregateFn for NullAgg {
    ghost seen = { λ s. 0 };

    ghost takes = { λ s v. true };

    ghost alike = { λ a b. true };

    ghost after_value = { λ p v s. s };

    ghost joined = { λ a b. a };

    ghost given = { λ s. finalized.One av.Null };

    ghost fresh = { λ s. s };

    ghost is_physical = { λ s. false };

    ghost output_type = { λ s. s.0 };

    ghost seen_by_one = { λ p v s. none_by_one };

    ghost takes_alike = { λ p v w s. refl };

    fn has_physical_agg(&self) -> bool {
        false
    }

    fn pre_agg(&mut self, _place: Place, _value: AnyValue) {}

    fn dtype(&self) -> DataType {
        self.0
    }

    fn combine(&mut self, _other: NullAgg) {}

    fn finalize(&mut self) -> Finalized {
        Finalized::One(AnyValue::Null)
    }
}

impl AggregateLent for NullAgg {
    fn pre_agg_lent(&mut self, _place: Place, _value: &AnyValue) {}
}
