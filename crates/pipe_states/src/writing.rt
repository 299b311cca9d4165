//! A saved state as its bytes.

ghost use Rattle.std.specs.Prelude.{◌≡◌, ◌∷◌, ◌++◌, [], All, IfOk, OnOk, length, map, true};
ghost use Rattle.std.specs.Int.{bytes_high_first};
ghost use Rattle.pipe_aggs.specs.QueryTrees.{query_tree};
ghost use Rattle.pipe_columns.specs.AnyValue.{fits};
ghost use Rattle.pipe_columns.specs.Key.{code, value_code};
ghost use Rattle.pipe_columns.specs.declared.data_type.DataType.TheVariants as dt;
ghost use Rattle.pipe_model.specs.Aggregate.{counted};
ghost use Rattle.pipe_spill.specs.FrameBytes.{row_bytes, rows_bytes};
ghost use Rattle.pipe_spill.specs.KeyTypes.{AreOfTypes};
ghost use Rattle.pipe_states.specs.Fair.{IsRowOf, IsStateOf};
ghost use Rattle.pipe_states.specs.Forms.{all_result_types, all_saved, all_saved_types, BeginWithResults, saved_of, saved_types_of};
ghost use Rattle.pipe_states.specs.StateText.{high_half, low_half, saved_row, state_text, state_types};

use crate::halves::{high_half, low_half};
use crate::saved_types::{is_mean, width};
use crate::state_file::StateFile;
use crate::state_row::StateRow;
use pipe_aggs::{AggregateFn, AggregateFunction, CheckedQuery};
use pipe_columns::{AnyValue, DataType};
use pipe_spill::{append_value, encode_key_into};
use std::alloc::{AllocError, Global};

/// Room for the bytes of a row, at first.
const COMMON_ROW: usize = 64;

/// The text of a state of no rows yet, with room for so many.
fn begin(alloc: Global, first: u32, end: u32, count: usize) -> Result<Vec<u8>, AllocError>
    ensures { IfOk result (λ text. text.items
        ≡ bytes_high_first 4 first ++ bytes_high_first 4 end ++ bytes_high_first 8 count) }
{
    let room = count.saturating_mul(COMMON_ROW).saturating_add(16);
    let mut text = Vec::with_capacity(alloc, room)?;
    text.extend_from_slice(&first.to_be_bytes())?;
    text.extend_from_slice(&end.to_be_bytes())?;
    text.extend_from_slice(&(count as u64).to_be_bytes())?;
    Ok(text)
}

/// Appends the code of a count.
#[inline(always)]
fn append_count(text: &mut Vec<u8>, count: u32) -> Result<(), AllocError>
    ensures { OnOk result (text.new.items ≡ text.old.items ++ value_code dt.UInt32 (counted count)) }
{
    append_value(text, &AnyValue::Int(count as i128), DataType::UInt32)
}

/// Appends what is saved of a mean: both halves of its sum, and its count.
fn append_mean(text: &mut Vec<u8>, sum: &AnyValue, count: &AnyValue) -> Result<(), AllocError>
    requires { fits count.now dt.UInt32 ≡ true }
    ensures { OnOk result (text.new.items ≡ text.old.items
        ++ code (dt.Int64 ∷ dt.UInt64 ∷ dt.UInt32 ∷ [])
        (high_half sum.now ∷ low_half sum.now ∷ count.now ∷ [])) }
{
    append_value(text, &high_half(sum), DataType::Int64)?;
    append_value(text, &low_half(sum), DataType::UInt64)?;
    append_value(text, count, DataType::UInt32)
}

/// Appends what is saved of the results in front, which a running aggregate gives.
fn append_result(
    text: &mut Vec<u8>,
    function: &AggregateFunction,
    results: &[AnyValue],
) -> Result<(), AllocError>
    requires { BeginWithResults function.now results.now }
    ensures { OnOk result (text.new.items ≡ text.old.items
        ++ code (saved_types_of function.now) (saved_of function.now results.now)) }
{
    if is_mean(function) {
        append_mean(text, &results[0], &results[1])
    } else {
        append_value(text, &results[0], function.dtype())
    }
}

/// Appends what is saved of the results that running aggregates give.
fn append_results(
    text: &mut Vec<u8>,
    functions: &[AggregateFunction],
    results: &[AnyValue],
) -> Result<(), AllocError>
    requires { AreOfTypes (all_result_types functions.now) results.now }
    ensures { OnOk result (text.new.items ≡ text.old.items
        ++ code (all_saved_types functions.now) (all_saved functions.now results.now)) }
{
    let mut rest = results;
    for function in functions {
        append_result(text, function, rest)?;
        rest = &rest[width(function)..];
    }
    Ok(())
}

/// Appends the place of a row and its key, whose code it leaves in `key`.
fn append_head(
    text: &mut Vec<u8>,
    key: &mut Vec<u8>,
    types: &[DataType],
    row: &StateRow,
) -> Result<(), AllocError>
    requires { AreOfTypes types.now row.now.key }
    ensures { OnOk result (text.new.items ≡ text.old.items
        ++ bytes_high_first 4 row.now.first.chunk ++ bytes_high_first 4 row.now.first.row
        ++ bytes_high_first 8 (length (code types.now row.now.key)) ++ code types.now row.now.key) }
{
    encode_key_into(key, row.key.as_slice(), types)?;
    text.extend_from_slice(&row.first.chunk.to_be_bytes())?;
    text.extend_from_slice(&row.first.row.to_be_bytes())?;
    text.extend_from_slice(&(key.len() as u64).to_be_bytes())?;
    text.extend_from_slice(key)
}

/// Appends the greatest place of a row, and how many its rows are.
fn append_counts(text: &mut Vec<u8>, row: &StateRow) -> Result<(), AllocError>
    ensures { OnOk result (text.new.items ≡ text.old.items
        ++ code (dt.UInt32 ∷ dt.UInt32 ∷ dt.UInt32 ∷ [])
        (counted row.now.last.chunk ∷ counted row.now.last.row ∷ counted row.now.rows ∷ [])) }
{
    append_count(text, row.last.chunk)?;
    append_count(text, row.last.row)?;
    append_count(text, row.rows)
}

/// Appends the bytes of a row of a query. A refusal leaves a part of them.
fn append_row(
    text: &mut Vec<u8>,
    key: &mut Vec<u8>,
    query: &CheckedQuery<'_>,
    row: &StateRow,
) -> Result<(), AllocError>
    requires { IsRowOf (query_tree query.now) row.now }
    ensures { OnOk result (text.new.items ≡ text.old.items
        ++ row_bytes (state_types (query_tree query.now)) (saved_row (query_tree query.now) row.now)) }
{
    append_head(text, key, query.key_types(), row)?;
    append_counts(text, row)?;
    append_results(text, query.prototypes(), row.results.as_slice())
}

/// Appends the bytes of rows of a query. A refusal leaves a part of them.
fn append_rows(
    alloc: Global,
    text: &mut Vec<u8>,
    query: &CheckedQuery<'_>,
    rows: &[StateRow],
) -> Result<(), AllocError>
    requires { All (IsRowOf (query_tree query.now)) rows.now }
    ensures { OnOk result (text.new.items ≡ text.old.items
        ++ rows_bytes (state_types (query_tree query.now))
        (map (saved_row (query_tree query.now)) rows.now)) }
{
    let mut key = Vec::new(alloc);
    for row in rows {
        append_row(text, &mut key, query, row)?;
    }
    Ok(())
}

/// The bytes of a state of a query. They don't tell the query, which is kept beside them.
pub fn write_state(
    alloc: Global,
    query: &CheckedQuery<'_>,
    file: &StateFile,
) -> Result<Vec<u8>, AllocError>
    requires { IsStateOf (query_tree query.now) file.now }
    ensures { IfOk result (λ text. text.items ≡ state_text (query_tree query.now) file.now) }
{
    let rows = file.rows();
    let mut text = begin(alloc, file.first(), file.end(), rows.len())?;
    append_rows(alloc, &mut text, query, rows)?;
    Ok(text)
}
