//! Values that are lent to a running aggregate of any kind: only a text that it keeps takes memory.

ghost use Rattle.std.specs.Prelude.{◌≡◌, ◌+◌, ◌<◌, ◌≤◌, ◌^◌, true, false, length, None, IfSome, IsOk, OnOk, OnErr};
ghost use Rattle.std.specs.List.{list_all};
ghost use Rattle.pipe_columns.specs.Frame.{value_at};
ghost use Rattle.pipe_running.specs.Lent.{keeps_text, text_of_run};
ghost use Rattle.pipe_running.specs.Runs.{after_run};
ghost use Rattle.pipe_running.specs.States.{after_value, seen, takes};

use crate::function::AggregateFunction;
use crate::interface::AggregateFn;
use crate::lent::{AggregateLent, lend_run};
use pipe_columns::{AnyValue, Place};
use std::alloc::{AllocError, Global};

impl AggregateFunction {
    /// Whether it would keep the value as a text, so that a copy is needed.
    pub fn keeps_text(&self, place: Place, value: &AnyValue) -> bool
        ensures { result ≡ keeps_text place value.now self.now }
    {
        match self {
            Self::First(state) => matches!(value, AnyValue::Text(_)) && state.would_hold(place),
            Self::Last(state) => matches!(value, AnyValue::Text(_)) && state.would_hold(place),
            _ => false,
        }
    }

    /// Takes one more value that is lent, and is no text that it would keep. It takes no memory.
    pub fn pre_agg_lent(&mut self, place: Place, value: &AnyValue)
        requires taken { takes self.old value.now ≡ true }
        requires few { seen self.old + 1 < 2 ^ 32 }
        requires plain { keeps_text place value.now self.old ≡ false }
        ensures { self.new ≡ after_value place value.now self.old }
    {
        match self {
            AggregateFunction::First(state) => state.pre_agg_lent(place, value),
            AggregateFunction::Last(state) => state.pre_agg_lent(place, value),
            AggregateFunction::Count(state) => state.pre_agg_lent(place, value),
            AggregateFunction::Len(state) => state.pre_agg_lent(place, value),
            AggregateFunction::SumU32(state) => state.pre_agg_lent(place, value),
            AggregateFunction::SumU64(state) => state.pre_agg_lent(place, value),
            AggregateFunction::SumI32(state) => state.pre_agg_lent(place, value),
            AggregateFunction::SumI64(state) => state.pre_agg_lent(place, value),
            AggregateFunction::Mean(state) => state.pre_agg_lent(place, value),
            AggregateFunction::Null(state) => state.pre_agg_lent(place, value),
            AggregateFunction::MinMaxU8(state) => state.pre_agg_lent(place, value),
            AggregateFunction::MinMaxU16(state) => state.pre_agg_lent(place, value),
            AggregateFunction::MinMaxU32(state) => state.pre_agg_lent(place, value),
            AggregateFunction::MinMaxU64(state) => state.pre_agg_lent(place, value),
            AggregateFunction::MinMaxI8(state) => state.pre_agg_lent(place, value),
            AggregateFunction::MinMaxI16(state) => state.pre_agg_lent(place, value),
            AggregateFunction::MinMaxI32(state) => state.pre_agg_lent(place, value),
            AggregateFunction::MinMaxI64(state) => state.pre_agg_lent(place, value),
        }
    }

    /// Takes one more value that is lent. A text that it keeps is copied first; nothing else takes
    /// memory.
    pub fn pre_agg_copied(
        &mut self,
        alloc: Global,
        place: Place,
        value: &AnyValue,
    ) -> Result<(), AllocError>
        requires taken { takes self.old value.now ≡ true }
        requires few { seen self.old + 1 < 2 ^ 32 }
        ensures ok { OnOk result (self.new ≡ after_value place value.now self.old) }
        ensures err { OnErr result (self.new ≡ self.old) }
        ensures plain { keeps_text place value.now self.old ≡ false → IsOk result }
    {
        if self.keeps_text(place, value) {
            let copy = value.try_clone(alloc)?;
            self.pre_agg(place, copy);
        } else {
            self.pre_agg_lent(place, value);
        }
        Ok(())
    }

    /// Which value of a run it would keep as a text, so that a copy is needed: that value alone then
    /// leaves what the run leaves.
    pub fn text_of_run(&self, chunk: u32, first_row: u32, values: &[AnyValue]) -> Option<usize>
        requires { first_row + length values.now ≤ 2 ^ 32 }
        ensures index { result ≡ text_of_run chunk first_row values.now self.now }
        ensures inside { IfSome result (λ i. i < length values.now) }
        ensures alone { IfSome result (λ i.
            after_run after_value chunk first_row values.now self.now
            ≡ after_value (record { chunk = chunk; row = first_row + i })
            (value_at values.now i) self.now) }
    {
        let index = match self {
            Self::First(_) => 0,
            Self::Last(_) => values.len().saturating_sub(1),
            _ => return None,
        };
        let value = values.get(index)?;
        let row = first_row + index as u32;
        self.keeps_text(Place { chunk, row }, value)
            .then_some(index)
    }

    /// Takes the values of rows that follow one another, which are lent, and among which is no text
    /// that it would keep. It takes no memory.
    pub fn pre_agg_ordered_lent(&mut self, chunk: u32, first_row: u32, values: &[AnyValue])
        requires taken { list_all (λ v. takes self.old v) values.now ≡ true }
        requires few { seen self.old + length values.now < 2 ^ 32 }
        requires rows { first_row + length values.now ≤ 2 ^ 32 }
        requires plain { text_of_run chunk first_row values.now self.old ≡ None }
        ensures { self.new ≡ after_run after_value chunk first_row values.now self.old }
    {
        match self {
            AggregateFunction::First(state) => {
                if let Some(value) = values.first() {
                    let row = first_row;
                    state.pre_agg_lent(Place { chunk, row }, value);
                }
            }
            AggregateFunction::Last(state) => {
                if let Some(value) = values.last() {
                    let row = first_row + (values.len() - 1) as u32;
                    state.pre_agg_lent(Place { chunk, row }, value);
                }
            }
            AggregateFunction::Count(state) => lend_run(state, chunk, first_row, values),
            AggregateFunction::Len(state) => lend_run(state, chunk, first_row, values),
            AggregateFunction::SumU32(state) => lend_run(state, chunk, first_row, values),
            AggregateFunction::SumU64(state) => lend_run(state, chunk, first_row, values),
            AggregateFunction::SumI32(state) => lend_run(state, chunk, first_row, values),
            AggregateFunction::SumI64(state) => lend_run(state, chunk, first_row, values),
            AggregateFunction::Mean(state) => lend_run(state, chunk, first_row, values),
            AggregateFunction::Null(state) => lend_run(state, chunk, first_row, values),
            AggregateFunction::MinMaxU8(state) => lend_run(state, chunk, first_row, values),
            AggregateFunction::MinMaxU16(state) => lend_run(state, chunk, first_row, values),
            AggregateFunction::MinMaxU32(state) => lend_run(state, chunk, first_row, values),
            AggregateFunction::MinMaxU64(state) => lend_run(state, chunk, first_row, values),
            AggregateFunction::MinMaxI8(state) => lend_run(state, chunk, first_row, values),
            AggregateFunction::MinMaxI16(state) => lend_run(state, chunk, first_row, values),
            AggregateFunction::MinMaxI32(state) => lend_run(state, chunk, first_row, values),
            AggregateFunction::MinMaxI64(state) => lend_run(state, chunk, first_row, values),
        }
    }
}
