//! What every running aggregate can do.

ghost use Rattle.std.specs.Prelude.{◌≡◌, ◌+◌, ◌<◌, ◌≤◌, ◌^◌, ℕ, Bool, true, length, replicate};
ghost use Rattle.std.specs.List.{list_all};
ghost use Rattle.pipe_columns.specs.declared.any_value.AnyValue.{AnyValue};
ghost use Rattle.pipe_columns.specs.declared.any_value.AnyValue.TheVariants as av;
ghost use Rattle.pipe_columns.specs.declared.data_type.DataType.{DataType};
ghost use Rattle.pipe_columns.specs.declared.place.Place.{Place};
ghost use Rattle.pipe_running.specs.declared.interface.Finalized.{Finalized};
ghost use Rattle.pipe_running.specs.Runs.{after_run};

use pipe_columns::{AnyValue, DataType, Place};
use std::mem;

/// What an aggregate gives: the value of its output column, or those of its two columns.
#[derive(Debug, Drop, PartialEq, Eq)]
pub enum Finalized {
    One(AnyValue),
    Pair(AnyValue, AnyValue),
}

/// A running aggregate: it takes the values of a group in any order of places, and other
/// aggregates of its kind. No call takes memory.
pub trait AggregateFn {
    /// How many values it has counted, 0 where it counts none.
    ghost seen: { Self → ℕ };

    /// Whether it takes a value.
    ghost takes: { Self → AnyValue → Bool };

    /// Whether two are of one kind and direction.
    ghost alike: { Self → Self → Bool };

    /// The state with one more value.
    ghost after_value: { Place → AnyValue → Self → Self };

    /// Two states together.
    ghost joined: { Self → Self → Self };

    /// What the state gives.
    ghost given: { Self → Finalized };

    /// The state before any value.
    ghost fresh: { Self → Self };

    /// Whether it is computed on physical numbers.
    ghost is_physical: { Self → Bool };

    /// The type of the first column that it gives.
    ghost output_type: { Self → DataType };

    /// Whether the aggregate is computed on physical numbers.
    fn has_physical_agg(&self) -> bool
        ensures { result ≡ is_physical self.now };

    /// Takes one more value.
    fn pre_agg(&mut self, place: Place, value: AnyValue)
        requires taken { takes self.old value ≡ true }
        requires few { seen self.old + 1 < 2 ^ 32 }
        ensures { self.new ≡ after_value place value self.old };

    /// Takes the values of rows that follow one another, and leaves nulls.
    fn pre_agg_ordered(&mut self, chunk: u32, first_row: u32, values: &mut [AnyValue])
        requires taken { list_all (λ v. takes self.old v) values.old ≡ true }
        requires few { seen self.old + length values.old < 2 ^ 32 }
        requires rows { first_row + length values.old ≤ 2 ^ 32 }
        ensures state { self.new ≡ after_run after_value chunk first_row values.old self.old }
        ensures nulls { values.new ≡ replicate (length values.old) av.Null }
    {
        for index in 0..values.len() {
            let value = mem::replace(&mut values[index], AnyValue::Null);
            let row = first_row + index as u32;
            self.pre_agg(Place { chunk, row }, value);
        }
    }

    /// The type of the first column that it gives.
    fn dtype(&self) -> DataType
        ensures { result ≡ output_type self.now };

    /// Takes over what another aggregate of its kind has seen.
    fn combine(&mut self, other: Self)
        requires alike { alike self.old other ≡ true }
        requires few { seen self.old + seen other < 2 ^ 32 }
        ensures { self.new ≡ joined self.old other };

    /// Gives the aggregate of the values so far, and begins anew.
    fn finalize(&mut self) -> Finalized
        ensures given { result ≡ given self.old }
        ensures fresh { self.new ≡ fresh self.old };

    ghost seen_by_one: { (p : Place) (v : AnyValue) (s : Self)
        → seen (after_value p v s) ≤ seen s + 1 };

    ghost takes_alike: { (p : Place) (v w : AnyValue) (s : Self)
        → takes (after_value p v s) w ≡ takes s w };
}
