//! Two results in an output column as one.

ghost use Rattle.std.specs.Prelude.{◌≡◌, ◌+ℤ◌, OnOk, if◌then◌else◌};
ghost use Rattle.std.specs.Ordering.{is_gt, is_lt};
ghost use Rattle.pipe_columns.specs.AnyValue.{is_null, value_cmp};
ghost use Rattle.pipe_columns.specs.DataType.{wrapped};
ghost use Rattle.pipe_columns.specs.declared.data_type.DataType.TheVariants as dt;
ghost use Rattle.pipe_model.specs.Aggregate.{addend};
ghost use Rattle.pipe_regroup.specs.Rules.{added, chosen, joined};

use crate::rule::Rule;
use pipe_aggs::NumericNative;
use pipe_columns::AnyValue;
use std::alloc::{AllocError, Global};

/// The number that a value adds to a sum.
fn addend(value: &AnyValue) -> i128
    ensures { result ≡ addend value.now }
{
    match value {
        AnyValue::Int(number) => *number,
        AnyValue::Boolean(true) => 1,
        _ => 0,
    }
}

/// The sum of two numbers, wrapped into a type.
fn sum_in<K: NumericNative>(held: &AnyValue, more: &AnyValue) -> i128
    ensures { result ≡ wrapped K.native.dtype (addend held.now +ℤ addend more.now) }
{
    let sum = K::narrowed(addend(held)).plus(K::narrowed(addend(more)));
    sum.widened()
}

/// Adds a number, wrapped into a type.
fn add<K: NumericNative>(held: &mut AnyValue, more: &AnyValue)
    ensures { held.new ≡ added K.native.dtype held.old more.now }
{
    let sum = sum_in::<K>(held, more);
    *held = AnyValue::Int(sum);
}

/// Whether a value is a null.
fn is_null(value: &AnyValue) -> bool
    ensures { result ≡ is_null value.now }
{
    matches!(value, AnyValue::Null)
}

/// Adds the sum of a mean, which may be null.
fn add_sum(held: &mut AnyValue, more: &AnyValue)
    ensures { held.new ≡ if is_null more.now then held.old else added dt.Int128 held.old more.now }
{
    if !is_null(more) {
        add::<i128>(held, more);
    }
}

/// Takes another value, where it is to take over or nothing is held.
fn choose(
    alloc: Global,
    takes_over: bool,
    held: &mut AnyValue,
    more: &AnyValue,
) -> Result<(), AllocError>
    ensures { OnOk result (held.new ≡ chosen takes_over held.old more.now) }
{
    if is_null(more) {
        return Ok(());
    }
    if is_null(held) || takes_over {
        *held = more.try_clone(alloc)?;
    }
    Ok(())
}

/// Takes another value, where it is to take over.
fn replace(
    alloc: Global,
    takes_over: bool,
    held: &mut AnyValue,
    more: &AnyValue,
) -> Result<(), AllocError>
    ensures { OnOk result (held.new ≡ if takes_over then more.now else held.old) }
{
    if takes_over {
        *held = more.try_clone(alloc)?;
    }
    Ok(())
}

/// Joins the result of one more state row, whose least place may be earlier, and its greatest
/// later. Only a text that takes over takes memory.
#[inline(always)]
pub(crate) fn join_value(
    alloc: Global,
    rule: Rule,
    earlier: bool,
    later: bool,
    held: &mut AnyValue,
    more: &AnyValue,
) -> Result<(), AllocError>
    ensures { OnOk result (held.new ≡ joined rule earlier later held.old more.now) }
{
    match rule {
        Rule::SumU32 => add::<u32>(held, more),
        Rule::SumU64 => add::<u64>(held, more),
        Rule::SumI32 => add::<i32>(held, more),
        Rule::SumI64 => add::<i64>(held, more),
        Rule::MeanSum => add_sum(held, more),
        Rule::Null => {}
        Rule::Least => {
            let takes_over = more.cmp(held).is_lt();
            choose(alloc, takes_over, held, more)?;
        }
        Rule::Greatest => {
            let takes_over = more.cmp(held).is_gt();
            choose(alloc, takes_over, held, more)?;
        }
        Rule::First => replace(alloc, earlier, held, more)?,
        Rule::Last => replace(alloc, later, held, more)?,
    }
    Ok(())
}
