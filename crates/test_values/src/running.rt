//! Running aggregates: their calls, over few values. What each gives of values, at the edges of
//! types too, is told by the cases of the program.

ghost use Rattle.std.specs.Prelude.{◌≡◌, ◌+◌, ◌<◌, ◌≤◌, ◌^◌, true};
ghost use Rattle.pipe_running.specs.States.{seen, takes};

use crate::made::{Seen, is_value, value_of};
use pipe_columns::{AnyValue, DataType, Place};
use pipe_running::{
    AggregateFn, AggregateFunction, CountAgg, Finalized, FirstAgg, LastAgg, SumAgg,
};
use std::alloc::Global;
use std::test::Fail;

/// A kind of aggregate.
#[derive(Clone, Copy)]
enum Kind {
    First,
    Last,
    Sum,
}

/// An aggregate of a kind that has seen nothing.
fn function_of(kind: Kind) -> AggregateFunction
    ensures { seen result ≡ 0 }
{
    match kind {
        Kind::First => AggregateFunction::First(FirstAgg::new(DataType::String)),
        Kind::Last => AggregateFunction::Last(LastAgg::new(DataType::String)),
        Kind::Sum => AggregateFunction::SumI64(SumAgg::new()),
    }
}

/// Whether an aggregate takes any value.
fn takes_all(function: &AggregateFunction, value: &AnyValue) -> bool
    ensures { result ≡ true → takes function.now value.now ≡ true }
{
    matches!(
        function,
        AggregateFunction::First(_) | AggregateFunction::Last(_) | AggregateFunction::SumI64(_)
    )
}

/// Whether an aggregate gave this value alone.
fn is_given(given: &Finalized, want: Seen) -> bool {
    match given {
        Finalized::One(value) => is_value(value, want),
        Finalized::Pair(_, _) => false,
    }
}

/// Lends an aggregate the value of a row; an error where it doesn't take it.
fn lend(
    alloc: Global,
    function: &mut AggregateFunction,
    row: u32,
    value: &AnyValue,
) -> Result<(), Fail>
    requires { seen function.old + 1 < 2 ^ 32 }
    ensures few { seen function.new ≤ seen function.old + 1 }
{
    let place = Place { chunk: 2, row };
    if !takes_all(function, value) {
        return Err("not taken".into());
    }
    if function.keeps_text(place, value) {
        function.pre_agg_copied(alloc, place, value)?;
    } else {
        function.pre_agg_lent(place, value);
    }
    Ok(())
}

/// Lends an aggregate two values one by one, the later row first.
fn lend_rows(
    alloc: Global,
    function: &mut AggregateFunction,
    values: &[AnyValue; 2],
) -> Result<(), Fail>
    requires { seen function.old + 2 < 2 ^ 32 }
{
    lend(alloc, function, 8, &values[1])?;
    lend(alloc, function, 7, &values[0])
}

/// Lends an aggregate two values as a run, unless it keeps a text of them.
fn lend_run(function: &mut AggregateFunction, values: &[AnyValue; 2], kept: Option<usize>) -> bool
    requires { seen function.old + 2 < 2 ^ 32 }
{
    if !takes_all(function, &values[0]) || !takes_all(function, &values[1]) {
        return false;
    }
    let text = function.text_of_run(2, 7, values);
    if text.is_none() {
        function.pre_agg_ordered_lent(2, 7, values);
    }
    text == kept
}

/// An aggregate, two values, which of them it keeps as a text, and what it gives of them.
type Case = (Kind, [Seen; 2], Option<usize>, Seen);

/// Whether an aggregate gives this of values that it is lent, one by one and then as a run.
fn gives(alloc: Global, values: &[AnyValue; 2], case: &Case) -> Result<bool, Fail> {
    let mut function = function_of(case.0);
    lend_rows(alloc, &mut function, values)?;
    let as_rows = is_given(&function.finalize(), case.3);
    let as_run = lend_run(&mut function_of(case.0), values, case.2);
    Ok(as_rows && as_run)
}

/// Whether a case holds.
fn holds(alloc: Global, case: &Case) -> Result<bool, Fail> {
    let front = value_of(alloc, case.1[0])?;
    let values = [front, value_of(alloc, case.1[1])?];
    gives(alloc, &values, case)
}

const WORDS: [Seen; 2] = [Seen::Word("b"), Seen::Word("a")];

const FIRST: Case = (Kind::First, WORDS, Some(0), Seen::Word("b"));

const LAST: Case = (Kind::Last, WORDS, Some(1), Seen::Word("a"));

const SUM: Case = (
    Kind::Sum,
    [Seen::Int(5), Seen::Int(-7)],
    None,
    Seen::Int(-2),
);

/// Whether a first, a last and a sum hold.
fn all_hold(alloc: Global) -> Result<bool, Fail> {
    Ok(holds(alloc, &FIRST)? && holds(alloc, &LAST)? && holds(alloc, &SUM)?)
}

#[test]
fn lent_values(rt: HostRuntime) -> Result<(), Fail> {
    assert!(rt; all_hold(rt.alloc())?);
    Ok(())
}

/// Whether a count gives two, and then begins anew.
fn counts_two(count: &mut CountAgg<false>) -> bool {
    count.dtype() == DataType::UInt32
        && !count.has_physical_agg()
        && is_given(&count.finalize(), Seen::Int(2))
        && is_given(&count.finalize(), Seen::Int(0))
}

/// Whether values are null.
fn are_null(values: &[AnyValue; 3]) -> bool {
    is_value(&values[0], Seen::Null)
        && is_value(&values[1], Seen::Null)
        && is_value(&values[2], Seen::Null)
}

#[test]
fn runs_leave_nulls(rt: HostRuntime) {
    let mut count = CountAgg::<false>::new();
    let mut values = [AnyValue::Null, AnyValue::Int(5), AnyValue::Boolean(true)];
    count.pre_agg_ordered(3, 4294967293, &mut values);
    assert!(rt; are_null(&values) && counts_two(&mut count));
}
