//! States that are merged into one.

ghost use Rattle.std.specs.Prelude.{◌≡◌, ◌≤◌, ◌↔◌, ◌<◌, ◌^◌, [], All, IfOk, IsErrOf, length, map, OnOk};
ghost use Rattle.std.specs.List.{range_with_len};
ghost use Rattle.pipe_aggs.specs.QueryTrees.{query_tree};
ghost use Rattle.pipe_model.specs.Groupable.{IsGroupable};
ghost use Rattle.pipe_regroup.specs.declared.merge_error.MergeError.TheVariants as fault;
ghost use Rattle.pipe_regroup.specs.Groups.{group_row, groups_of};
ghost use Rattle.pipe_regroup.specs.Regrouping.{AreGroupsBy};
ghost use Rattle.pipe_states.specs.Fair.{IsStateOf};
ghost use Rattle.pipe_states.specs.Files.{IsFairStateOf};
ghost use Rattle.pipe_states.specs.Regrouped.{merged_states};
ghost use Rattle.pipe_states.specs.Together.{FollowOn, total_rows};

use crate::group::Group;
use crate::merge_error::MergeError;
use crate::row_groups::RowGroups;
use crate::setup::groups_by;
use crate::total::total;
use pipe_aggs::CheckedQuery;
use pipe_spill::Values;
use pipe_states::{StateFile, StateRow};
use std::alloc::{AllocError, Global};

/// Groups as state rows.
fn state_rows(alloc: Global, groups: Vec<Group>) -> Result<Vec<StateRow>, AllocError>
    ensures { IfOk result (λ rows. rows.items ≡ map group_row groups.items) }
{
    let mut rows = Vec::with_capacity(alloc, groups.len())?;
    for group in groups {
        rows.push(StateRow {
            key: Values::new(group.key),
            first: group.first,
            last: group.last,
            rows: group.rows,
            results: Values::new(group.results),
        })?;
    }
    Ok(rows)
}

/// No groups yet, by all keys of a query.
fn groups_by_all(alloc: Global, query: &CheckedQuery<'_>) -> Result<RowGroups, AllocError>
    ensures by { IfOk result (AreGroupsBy (query_tree query.now)
        (range_with_len 0 (length (query_tree query.now).keys))) }
    ensures none { IfOk result (λ groups. groups_of groups ≡ []) }
    ensures groupable { OnOk result (IsGroupable (query_tree query.now)) }
{
    let count = query.key_types().len();
    let mut keep = Vec::with_capacity(alloc, count)?;
    for index in 0..count {
        keep.push(index)?;
    }
    groups_by(alloc, query, &keep)
}

/// The rows of states, merged.
fn merged_rows(
    alloc: Global,
    query: &CheckedQuery<'_>,
    files: &[StateFile],
) -> Result<Vec<StateRow>, AllocError>
    requires of_query { All (IsStateOf (query_tree query.now)) files.now }
    requires few { total_rows files.now < 2 ^ 32 }
    ensures { IfOk result (λ rows. rows.items
        ≡ (merged_states (query_tree query.now) files.now).rows) }
{
    let mut groups = groups_by_all(alloc, query)?;
    for file in files {
        groups = groups.add_rows(alloc, file.rows())?;
    }
    state_rows(alloc, groups.sorted())
}

/// States of a query as one, where each begins at the end of the one before.
pub fn merge_files(
    alloc: Global,
    query: &CheckedQuery<'_>,
    files: &[StateFile],
) -> Result<StateFile, MergeError>
    requires some { 1 ≤ length files.now }
    requires of_query { All (IsStateOf (query_tree query.now)) files.now }
    requires follow { FollowOn files.now }
    ensures merged { IfOk result (λ s. s ≡ merged_states (query_tree query.now) files.now) }
    ensures of_query { IfOk result (IsFairStateOf (query_tree query.now)) }
    ensures large { IsErrOf result fault.TooLarge ↔ 2 ^ 32 ≤ total_rows files.now }
{
    if total(files).is_none() {
        return Err(MergeError::TooLarge);
    }
    let first = files[0].first();
    let end = files[files.len() - 1].end();
    let rows = merged_rows(alloc, query, files)?;
    Ok(StateFile::new(first, end, rows))
}
