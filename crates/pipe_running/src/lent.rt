//! Values that are lent: what keeps none of them takes them by reference.

ghost use Rattle.std.specs.Prelude.{◌≡◌, ◌+◌, ◌<◌, ◌≤◌, ◌^◌, true, false, length};
ghost use Rattle.std.specs.List.{list_all};
ghost use Rattle.pipe_running.specs.Held.{is_text};
ghost use Rattle.pipe_running.specs.Runs.{after_run};

use crate::interface::AggregateFn;
use pipe_columns::{AnyValue, Place};

/// A value of its own that equals one which is no text.
pub(crate) fn plain_copy(value: &AnyValue) -> AnyValue
    requires { is_text value.now ≡ false }
    ensures { result ≡ value.now }
{
    match value {
        AnyValue::Null => AnyValue::Null,
        AnyValue::Boolean(truth) => AnyValue::Boolean(*truth),
        AnyValue::Int(number) => AnyValue::Int(*number),
        AnyValue::Text(_) => unreachable!(),
    }
}

/// A running aggregate that keeps none of the values that it takes.
pub(crate) trait AggregateLent: AggregateFn {
    /// Takes one more value that is lent.
    fn pre_agg_lent(&mut self, place: Place, value: &AnyValue)
        requires taken { Self.takes self.old value.now ≡ true }
        requires few { Self.seen self.old + 1 < 2 ^ 32 }
        ensures { self.new ≡ Self.after_value place value.now self.old };
}

/// Lends such an aggregate the values of rows that follow one another.
pub(crate) fn lend_run<A: AggregateLent>(
    state: &mut A,
    chunk: u32,
    first_row: u32,
    values: &[AnyValue],
)
    requires taken { list_all (λ v. A.takes state.old v) values.now ≡ true }
    requires few { A.seen state.old + length values.now < 2 ^ 32 }
    requires rows { first_row + length values.now ≤ 2 ^ 32 }
    ensures { state.new ≡ after_run A.after_value chunk first_row values.now state.old }
{
    for index in 0..values.len() {
        let row = first_row + index as u32;
        state.pre_agg_lent(Place { chunk, row }, &values[index]);
    }
}
