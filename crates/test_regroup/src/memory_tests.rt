//! Calls that want memory are made again.

ghost use Rattle.std.specs.Prelude.{◌≤◌, All, length};
ghost use Rattle.pipe_aggs.specs.QueryTrees.{query_tree};
ghost use Rattle.pipe_states.specs.Fair.{IsStateOf};
ghost use Rattle.pipe_states.specs.Together.{FollowOn};

use crate::asked::{are, four_aggregates, one_row, three_rows};
use crate::asks::{Asks, ask};
use crate::regrouped::{by_first_key, is_worked};
use crate::states::state_of;
use pipe_aggs::CheckedQuery;
use pipe_columns::{DataFrame, Place};
use pipe_regroup::{MergeError, RegroupError, Regrouping, merge_files};
use pipe_states::{StateFile, StateRow};
use std::alloc::Global;
use std::test::Fail;

/// Whether a row has these numbers as its key, its places, its count and its results.
fn is_row(row: &StateRow, key: [i128; 2], places: [Place; 2], rows: u32, results: &[i128]) -> bool {
    are(row.key.as_slice(), &key)
        && row.first == places[0]
        && row.last == places[1]
        && row.rows == rows
        && are(row.results.as_slice(), results)
}

fn at(chunk: u32, row: u32) -> Place {
    Place { chunk, row }
}

/// Whether a state is that of both chunks: the sum, the first, the sum and the count of the mean,
/// and the last.
fn is_of_both(file: &StateFile) -> bool {
    let rows = file.rows();
    file.first() == 0
        && file.end() == 2
        && rows.len() == 3
        && is_row(
            &rows[0],
            [1, 1],
            [at(0, 0), at(1, 0)],
            2,
            &[14, 5, 14, 2, 9],
        )
        && is_row(&rows[1], [1, 2], [at(0, 1), at(0, 1)], 1, &[6, 6, 6, 1, 6])
        && is_row(&rows[2], [2, 1], [at(0, 2), at(0, 2)], 1, &[7, 7, 7, 1, 7])
}

/// Whether states merged are the known one. Where memory is wanting, they are merged again.
fn is_merged(alloc: Global, query: &CheckedQuery<'_>, files: &[StateFile]) -> Result<bool, Fail>
    requires some { 1 ≤ length files.now }
    requires of_query { All (IsStateOf (query_tree query.now)) files.now }
    requires follow { FollowOn files.now }
{
    match merge_files(alloc, query, files) {
        Ok(file) => Ok(is_of_both(&file)),
        Err(MergeError::Memory) => {
            let file = merge_files(alloc, query, files)?;
            Ok(is_of_both(&file))
        }
        Err(MergeError::TooLarge) => Ok(false),
    }
}

/// Whether the states of two chunks are merged.
pub(crate) fn are_merged(alloc: Global, query: &CheckedQuery<'_>) -> Result<bool, Fail> {
    let before = state_of(alloc, query, 0, three_rows(alloc)?)?;
    let behind = state_of(alloc, query, 1, one_row(alloc)?)?;
    is_merged(alloc, query, &[before, behind])
}

/// The frame of two states by the first key, each added by itself.
fn added<'a>(
    alloc: Global,
    query: &'a CheckedQuery<'a>,
    one: &StateFile,
    other: &StateFile,
) -> Result<DataFrame, RegroupError>
    requires one { IsStateOf (query_tree query.now) one.now }
    requires other { IsStateOf (query_tree query.now) other.now }
{
    if query.key_types().is_empty() {
        return Err(RegroupError::TooLarge);
    }
    let regrouping = Regrouping::begin(alloc, query, &[0])?;
    let regrouping = regrouping.add(alloc, one)?;
    let regrouping = regrouping.add(alloc, other)?;
    regrouping.finish(alloc)
}

/// Whether the states of two chunks give the known frame. Where memory is wanting, they are added
/// again.
pub(crate) fn are_regrouped<'a>(alloc: Global, query: &'a CheckedQuery<'a>) -> Result<bool, Fail> {
    let before = state_of(alloc, query, 0, three_rows(alloc)?)?;
    let behind = state_of(alloc, query, 1, one_row(alloc)?)?;
    match added(alloc, query, &behind, &before) {
        Ok(frame) => Ok(is_worked(&frame)),
        Err(RegroupError::Memory) => {
            let frame = added(alloc, query, &behind, &before)?;
            Ok(is_worked(&frame))
        }
        Err(_) => Ok(false),
    }
}

/// Whether states give the known frame at once. Where memory is wanting, they are regrouped again.
fn is_at_once<'a>(
    alloc: Global,
    query: &'a CheckedQuery<'a>,
    files: &[StateFile],
) -> Result<bool, Fail>
    requires { All (IsStateOf (query_tree query.now)) files.now }
{
    match by_first_key(alloc, query, files) {
        Ok(frame) => Ok(is_worked(&frame)),
        Err(RegroupError::Memory) => {
            let frame = by_first_key(alloc, query, files)?;
            Ok(is_worked(&frame))
        }
        Err(_) => Ok(false),
    }
}

/// Whether the states of two chunks are regrouped at once.
pub(crate) fn are_at_once<'a>(alloc: Global, query: &'a CheckedQuery<'a>) -> Result<bool, Fail> {
    let before = state_of(alloc, query, 0, three_rows(alloc)?)?;
    let behind = state_of(alloc, query, 1, one_row(alloc)?)?;
    is_at_once(alloc, query, &[behind, before])
}

#[test]
fn states_again(rt: HostRuntime) -> Result<(), Fail> {
    let query = four_aggregates(rt.alloc())?;
    for asks in [Asks::Merged, Asks::Added, Asks::AtOnce] {
        assert!(rt; ask(rt.alloc(), &query, asks)?);
    }
    Ok(())
}
