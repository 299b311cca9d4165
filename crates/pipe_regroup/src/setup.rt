//! Groups of no state rows yet, as a query and the keys that are kept call for.

ghost use Rattle.std.specs.Prelude.{◌≡◌, ◌<◌, [], All, IfOk, length, OnOk};
ghost use Rattle.pipe_aggs.specs.QueryTrees.{query_tree};
ghost use Rattle.pipe_model.specs.Groupable.{IsGroupable};
ghost use Rattle.pipe_model.specs.Output.{key_types};
ghost use Rattle.pipe_regroup.specs.Groups.{groups_of};
ghost use Rattle.pipe_regroup.specs.Regrouping.{AreGroupsBy};
ghost use Rattle.pipe_states.specs.Regrouped.{with_keys};

use crate::row_groups::RowGroups;
use crate::rule::rules_of;
use pipe_aggs::CheckedQuery;
use pipe_columns::DataType;
use std::alloc::{AllocError, Global};

/// The types of the kept keys.
fn kept_types(
    alloc: Global,
    query: &CheckedQuery<'_>,
    keep: &[usize],
) -> Result<Vec<DataType>, AllocError>
    requires { All (λ i. i < length (query_tree query.now).keys) keep.now }
    ensures { IfOk result (λ types. types.items
        ≡ key_types (with_keys (query_tree query.now) keep.now)) }
{
    let all = query.key_types();
    let mut types = Vec::with_capacity(alloc, keep.len())?;
    for i in 0..keep.len() {
        let index = keep[i];
        types.push(all[index])?;
    }
    Ok(types)
}

/// No groups yet, by the keys at some positions.
pub(crate) fn groups_by(
    alloc: Global,
    query: &CheckedQuery<'_>,
    keep: &[usize],
) -> Result<RowGroups, AllocError>
    requires { All (λ i. i < length (query_tree query.now).keys) keep.now }
    ensures by { IfOk result (AreGroupsBy (query_tree query.now) keep.now) }
    ensures none { IfOk result (λ groups. groups_of groups ≡ []) }
    ensures groupable { OnOk result (IsGroupable (query_tree query.now)) }
{
    let types = kept_types(alloc, query, keep)?;
    let rules = rules_of(alloc, query.prototypes())?;
    let keep = Vec::from_slice(alloc, keep)?;
    Ok(RowGroups::new(alloc, keep, types, rules, query.hash_keys()))
}
