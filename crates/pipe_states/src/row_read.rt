//! State rows out of their bytes.

ghost use Rattle.std.specs.Prelude.{◌≡◌, ◌++◌, All, IfOk, IsErrOf, map};
ghost use Rattle.pipe_aggs.specs.HashAggs.{prototypes};
ghost use Rattle.pipe_aggs.specs.QueryTrees.{query_tree};
ghost use Rattle.pipe_spill.specs.FrameBytes.{frame_bytes, row_bytes};
ghost use Rattle.pipe_spill.specs.KeyTypes.{AreOfTypes};
ghost use Rattle.pipe_states.specs.Forms.{all_give, all_result_types, all_saved_types};
ghost use Rattle.pipe_states.specs.Reading.{BeginsNoStateRow, IsFrameOfNoState, IsTextRow};
ghost use Rattle.pipe_states.specs.StateText.{saved_row, state_types};
ghost use Rattle.pipe_states.specs.declared.state_error.StateError.TheVariants as fault;

use crate::numbers::{take_counts, take_key, take_u64};
use crate::results::{all_give, read_results};
use crate::state_error::StateError;
use crate::state_row::StateRow;
use crate::values::read_key;
use pipe_aggs::{AggregateFunction, CheckedQuery};
use pipe_columns::DataType;
use pipe_spill::Values;
use std::alloc::Global;

/// The fewest bytes that a row takes: those of its least place and of the length of its key.
const LEAST_ROW: usize = 16;

/// Whether running aggregates can give results over so many rows.
fn can_give(functions: &[AggregateFunction], rows: u32, results: &Values) -> bool
    requires { AreOfTypes (all_result_types functions.now) results.now }
    ensures { result ≡ all_give functions.now rows results.now }
{
    all_give(functions, rows, results.as_slice())
}

/// The state row of a query that the bytes begin with, whose results are saved in these types, and
/// the bytes after it.
fn read_row<'a>(
    alloc: Global,
    query: &CheckedQuery<'_>,
    types: &[DataType],
    bytes: &'a [u8],
) -> Result<(StateRow, &'a [u8]), StateError>
    requires { types.now ≡ all_saved_types (prototypes (query_tree query.now)) }
    ensures row { IfOk result (λ p. IsTextRow (query_tree query.now) p.0) }
    ensures bytes { IfOk result (λ p. row_bytes (state_types (query_tree query.now))
        (saved_row (query_tree query.now) p.0) ++ p.1.now ≡ bytes.now) }
    ensures refused { IsErrOf result fault.NotAState
        → BeginsNoStateRow (query_tree query.now) bytes.now }
{
    let functions = query.prototypes();
    let Some((first, code, rest)) = take_key(bytes) else {
        return Err(StateError::NotAState);
    };
    let Some((last, rows, saved)) = take_counts(rest) else {
        return Err(StateError::NotAState);
    };
    let key = read_key(alloc, code, query.key_types())?;
    let (results, after) = read_results(alloc, functions, types, saved)?;
    if !can_give(functions, rows, &results) {
        return Err(StateError::NotAState);
    }
    let row = StateRow {
        key,
        first,
        last,
        rows,
        results,
    };
    Ok((row, after))
}

/// The state rows of a query whose frame the bytes are, and whose results are saved in these types.
/// They take no more room than the bytes call for, whatever number of rows these begin with.
pub(crate) fn read_rows(
    alloc: Global,
    query: &CheckedQuery<'_>,
    types: &[DataType],
    bytes: &[u8],
) -> Result<Vec<StateRow>, StateError>
    requires { types.now ≡ all_saved_types (prototypes (query_tree query.now)) }
    ensures rows { IfOk result (λ rows. All (IsTextRow (query_tree query.now)) rows.items) }
    ensures frame { IfOk result (λ rows. frame_bytes (state_types (query_tree query.now))
        (map (saved_row (query_tree query.now)) rows.items) ≡ bytes.now) }
    ensures refused { IsErrOf result fault.NotAState
        → IsFrameOfNoState (query_tree query.now) bytes.now }
{
    let Some((count, mut rest)) = take_u64(bytes) else {
        return Err(StateError::NotAState);
    };
    if count > (rest.len() / LEAST_ROW) as u64 {
        return Err(StateError::NotAState);
    }
    let mut rows = Vec::with_capacity(alloc, count as usize)?;
    for _row in 0..count {
        let (row, after) = read_row(alloc, query, types, rest)?;
        rows.push(row)?;
        rest = after;
    }
    if rest.is_empty() {
        Ok(rows)
    } else {
        Err(StateError::NotAState)
    }
}
