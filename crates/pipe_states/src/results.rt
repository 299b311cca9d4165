//! Results out of the values that they are saved as, and whether they can be those of a query.

ghost use Rattle.std.specs.Prelude.{◌≡◌, ◌+◌, ◌<◌, ◌^◌, ◌++◌, ◌&&◌, [], All, IfOk, IsErrOf, None, OnOk, Some, drop, false, option_map, take};
ghost use Rattle.pipe_columns.specs.AnyValue.{HasUtf8, is_null};
ghost use Rattle.pipe_columns.specs.Frame.{value_at};
ghost use Rattle.pipe_columns.specs.declared.any_value.AnyValue.TheVariants as av;
ghost use Rattle.pipe_columns.specs.declared.any_value.AnyValue.{AnyValue};
ghost use Rattle.pipe_model.specs.Aggregate.{counted};
ghost use Rattle.pipe_spill.specs.KeyTypes.{AreOfTypes};
ghost use Rattle.pipe_states.specs.Fair.{does_sum_suit, is_count_within, is_number};
ghost use Rattle.pipe_states.specs.Forms.{all_give, all_result_types, all_saved_types, BeginWithResults, gives, is_mean, restored, restored_behind, saved_types_of, saved_width};
ghost use Rattle.pipe_states.specs.Reading.{AreResults, BeginsNoResults, results_bytes};
ghost use Rattle.pipe_states.specs.declared.state_error.StateError.TheVariants as fault;

use crate::halves::joined_halves;
use crate::saved_types::{is_mean, saved_width, width};
use crate::state_error::StateError;
use crate::values::read_values;
use pipe_aggs::AggregateFunction;
use pipe_columns::{AnyValue, DataType};
use pipe_spill::Values;
use std::alloc::Global;

/// Whether a value is a null.
fn is_null(value: &AnyValue) -> bool
    ensures { result ≡ is_null value.now }
{
    matches!(value, AnyValue::Null)
}

/// Whether a value is a certain number.
fn is_number(number: u32, value: &AnyValue) -> bool
    ensures { result ≡ is_number number value.now }
{
    match value {
        AnyValue::Int(n) => *n == number as i128,
        _ => false,
    }
}

/// Whether a number is a count of at most so many.
fn is_within(most: u32, number: i128) -> bool
    ensures { result ≡ is_count_within most (av.Int number) }
{
    number >= 0 && number <= most as i128
}

/// Whether a value is a count of at most so many.
fn is_count_within(most: u32, value: &AnyValue) -> bool
    ensures { result ≡ is_count_within most value.now }
{
    match value {
        AnyValue::Int(number) => is_within(most, *number),
        _ => false,
    }
}

/// Whether a sum goes with a count of so many values: each is of 2^64 at most.
fn does_sum_suit(sum: &AnyValue, count: u32) -> bool
    ensures { result ≡ does_sum_suit sum.now (counted count) }
{
    match sum {
        AnyValue::Null => count == 0,
        AnyValue::Int(sum) => count != 0 && sum.unsigned_abs() <= count as u128 * (1 << 64),
        _ => false,
    }
}

/// Whether a mean of so many rows can give a sum and a count.
fn gives_mean(rows: u32, sum: &AnyValue, count: &AnyValue) -> bool
    ensures { result ≡ (is_count_within rows count.now && does_sum_suit sum.now count.now) }
{
    match count {
        AnyValue::Int(number) if is_within(rows, *number) => does_sum_suit(sum, *number as u32),
        _ => false,
    }
}

/// Whether a running aggregate that is no mean can give a result over so many rows.
fn gives_one(function: &AggregateFunction, rows: u32, value: &AnyValue) -> bool
    requires { is_mean function.now ≡ false }
    ensures { (next : AnyValue) → result ≡ gives function.now rows value.now next }
{
    match function {
        AggregateFunction::Count(_) => is_count_within(rows, value),
        AggregateFunction::Len(_) => is_number(rows, value),
        AggregateFunction::SumU32(_)
        | AggregateFunction::SumU64(_)
        | AggregateFunction::SumI32(_)
        | AggregateFunction::SumI64(_) => !is_null(value),
        AggregateFunction::Null(_) => is_null(value),
        AggregateFunction::Mean(_) => unreachable!(),
        _ => true,
    }
}

/// Whether a running aggregate can give the results in front over so many rows.
fn gives(function: &AggregateFunction, rows: u32, results: &[AnyValue]) -> bool
    requires { BeginWithResults function.now results.now }
    ensures { result
        ≡ gives function.now rows (value_at results.now 0) (value_at results.now 1) }
{
    if is_mean(function) {
        gives_mean(rows, &results[0], &results[1])
    } else {
        gives_one(function, rows, &results[0])
    }
}

/// Whether running aggregates can give results over so many rows.
pub(crate) fn all_give(functions: &[AggregateFunction], rows: u32, results: &[AnyValue]) -> bool
    requires { AreOfTypes (all_result_types functions.now) results.now }
    ensures { result ≡ all_give functions.now rows results.now }
{
    let mut rest = results;
    for function in functions {
        if !gives(function, rows, rest) {
            return false;
        }
        rest = &rest[width(function)..];
    }
    true
}

/// Takes what was saved of a running aggregate's results out from a position on, and adds them.
fn restore(
    function: &AggregateFunction,
    values: &mut Values,
    j: usize,
    results: &mut Vec<AnyValue>,
) -> Result<(), StateError>
    requires typed { AreOfTypes (saved_types_of function.now)
        (take (saved_width function.now) (drop j values.old)) }
    requires far { j + 3 < 2 ^ 64 }
    ensures restored { OnOk result (option_map (λ more. results.old.items ++ more)
        (restored function.now (drop j values.old)) ≡ Some results.new.items) }
    ensures refused { IsErrOf result fault.NotAState
        → restored function.now (drop j values.old) ≡ None }
    ensures others { drop (j + saved_width function.now) values.new
        ≡ drop (j + saved_width function.now) values.old }
{
    if !is_mean(function) {
        results.push(values.take_out(j))?;
        return Ok(());
    }
    let high = values.take_out(j);
    let low = values.take_out(j + 1);
    let count = values.take_out(j + 2);
    let Some(sum) = joined_halves(&high, &low) else {
        return Err(StateError::NotAState);
    };
    results.push(sum)?;
    results.push(count)?;
    Ok(())
}

/// The results of running aggregates that were saved as some values, which it takes out.
fn restored_results(
    alloc: Global,
    functions: &[AggregateFunction],
    values: &mut Values,
) -> Result<Values, StateError>
    requires { AreOfTypes (all_saved_types functions.now) values.old }
    ensures restored { IfOk result
        (λ results. restored_behind [] functions.now values.old ≡ Some results) }
    ensures refused { IsErrOf result fault.NotAState
        → restored_behind [] functions.now values.old ≡ None }
{
    let mut results = Vec::with_capacity(alloc, functions.len())?;
    let mut j = 0;
    for function in functions {
        restore(function, values, j, &mut results)?;
        j += saved_width(function);
    }
    Ok(Values::new(results))
}

/// The results of running aggregates that were saved as some values: they are those values where
/// none is a mean.
fn results_of(
    alloc: Global,
    functions: &[AggregateFunction],
    mut values: Values,
) -> Result<Values, StateError>
    requires { AreOfTypes (all_saved_types functions.now) values }
    ensures restored { IfOk result
        (λ results. restored_behind [] functions.now values ≡ Some results) }
    ensures refused { IsErrOf result fault.NotAState
        → restored_behind [] functions.now values ≡ None }
{
    if values.as_slice().len() == functions.len() {
        return Ok(values);
    }
    restored_results(alloc, functions, &mut values)
}

/// The results of running aggregates that the bytes begin with, saved in these types, and the bytes
/// after them.
pub(crate) fn read_results<'a>(
    alloc: Global,
    functions: &[AggregateFunction],
    types: &[DataType],
    bytes: &'a [u8],
) -> Result<(Values, &'a [u8]), StateError>
    requires { types.now ≡ all_saved_types functions.now }
    ensures results { IfOk result (λ p. AreResults functions.now p.0) }
    ensures utf8 { IfOk result (λ p. All HasUtf8 p.0) }
    ensures code { IfOk result (λ p. results_bytes functions.now p.0 ++ p.1.now ≡ bytes.now) }
    ensures refused { IsErrOf result fault.NotAState → BeginsNoResults functions.now bytes.now }
{
    let (values, rest) = read_values(alloc, bytes, types)?;
    let results = results_of(alloc, functions, values)?;
    Ok((results, rest))
}
