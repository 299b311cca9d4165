//! The columns of generated rows.

ghost use Rattle.std.specs.Prelude.{◌≡◌, ◌+◌, ◌≤◌, ◌^◌, ◌<◌, IfOk, codes, map, pos, true, vec_len};
ghost use Rattle.std.specs.List.{range_with_len};
ghost use Rattle.pipe_columns.specs.declared.any_value.AnyValue.TheVariants as av;
ghost use Rattle.pipe_columns.specs.declared.data_type.DataType.TheVariants as dt;
ghost use Rattle.pipe_columns.specs.AnyValue.{fits};
ghost use Rattle.pipe_columns.specs.Frame.{AllFit};
ghost use Rattle.tool_made.specs.Made.{made_frame, made_key, made_value, numbers_column};

use pipe_columns::{AnyValue, Column, DataFrame, DataType, Text};
use std::alloc::{AllocError, Global};

/// The keys of generated rows are below this.
const KEYS: u64 = 1000;
/// Their values are below this.
const VALUES: u64 = 256;

/// A number as a value.
fn number(number: u64) -> AnyValue
    requires small { number < 1000 }
    ensures number { result ≡ av.Int (pos number) }
    ensures fit { fits result dt.Int64 ≡ true }
{
    AnyValue::Int(i128::from(number))
}

/// The keys of so many rows, from one on.
#[tactic(auto, using(crate::proofs::MadeFacts::keys_more))]
fn keys(alloc: Global, seed: u32, first: u64, count: usize) -> Result<Vec<AnyValue>, AllocError>
    requires few { first + count ≤ 2 ^ 32 }
    ensures keys { IfOk result (λ v. v.items
        ≡ map (λ i. av.Int (pos (made_key seed i))) (range_with_len first count)) }
    ensures fit { IfOk result (λ v. AllFit dt.Int64 v.items) }
    ensures count { IfOk result (λ v. vec_len v ≡ count) }
{
    let mut keys = Vec::with_capacity(alloc, count)?;
    for i in 0..count {
        let key = (first + i as u64) * u64::from(seed) % KEYS;
        if keys.push(number(key)).is_err() {
            return Err(AllocError);
        }
    }
    Ok(keys)
}

/// The values of so many rows, from one on.
#[tactic(auto, using(crate::proofs::MadeFacts::values_more))]
fn values(alloc: Global, first: u64, count: usize) -> Result<Vec<AnyValue>, AllocError>
    requires few { first + count ≤ 2 ^ 32 }
    ensures values { IfOk result (λ v. v.items
        ≡ map (λ i. av.Int (pos (made_value i))) (range_with_len first count)) }
    ensures fit { IfOk result (λ v. AllFit dt.Int64 v.items) }
    ensures count { IfOk result (λ v. vec_len v ≡ count) }
{
    let mut values = Vec::with_capacity(alloc, count)?;
    for i in 0..count {
        let value = (first + i as u64) % VALUES;
        if values.push(number(value)).is_err() {
            return Err(AllocError);
        }
    }
    Ok(values)
}

/// The frame of so many rows, from one on.
pub(crate) fn frame(
    alloc: Global,
    seed: u32,
    first: u64,
    count: usize,
) -> Result<DataFrame, AllocError>
    requires few { first + count ≤ 2 ^ 32 }
    ensures { IfOk result (λ f. f ≡ made_frame seed first count) }
{
    let dtype = DataType::Int64;
    let k = Column::new(
        Text::new(alloc, "k")?,
        dtype,
        false,
        keys(alloc, seed, first, count)?,
    );
    let v = Column::new(
        Text::new(alloc, "v")?,
        dtype,
        false,
        values(alloc, first, count)?,
    );
    let columns = vec![in alloc; k.unwrap(), v.unwrap()]?;
    Ok(DataFrame::new(count, columns).unwrap())
}
