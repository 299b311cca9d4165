//! A local table that is cut by partition.

ghost use Rattle.std.specs.Prelude.{◌≡◌, ◌<◌, ◌≤◌, ℕ, IfOk, OnOk, length, slice_index_or, vec_capacity, vec_len};
ghost use Rattle.pipe_aggs.specs.QueryTrees.{query_tree};
ghost use Rattle.pipe_groups.specs.Holds.{HoldFewer};
ghost use Rattle.pipe_groups.specs.Shape.{shape_of};
ghost use Rattle.pipe_asked.specs.Tasks.{IsPartOf};

use pipe_aggs::CheckedQuery;
use pipe_tables::AggHashTable;
use std::alloc::{AllocError, Global};

/// Puts for each of so many partitions, in order, a table of the groups of a local table whose keys lie
/// there.
fn put_parts(
    alloc: Global,
    query: &CheckedQuery<'_>,
    partitions: usize,
    local: &mut AggHashTable,
    parts: &mut Vec<AggHashTable>,
) -> Result<(), AllocError>
    requires some { 0 < partitions }
    requires shape { local.old.shape ≡ shape_of (query_tree query.now) }
    requires few { HoldFewer local.old.shape local.old.groups 0 }
    requires room { (vec_len parts.old ≡ 0) × (partitions ≤ vec_capacity parts.old) }
    ensures count { OnOk result (length parts.new.items ≡ partitions) }
    ensures parts { OnOk result ((p : ℕ) (d : _) → p < partitions
        → IsPartOf partitions p local.old (slice_index_or parts.new.items p d)) }
{
    for partition in 0..partitions {
        let mut part = AggHashTable::new(alloc, query, None)?;
        match part.combine_on_partition(partition, partitions, local) {
            Ok(()) => parts.push_reserved(part),
            Err(AllocError) => {
                drop(part);
                return Err(AllocError);
            }
        }
    }
    Ok(())
}

/// The tables that are taken out of a local table, one for each of so many partitions.
fn taken_parts(
    alloc: Global,
    query: &CheckedQuery<'_>,
    partitions: usize,
    local: &mut AggHashTable,
) -> Result<Vec<AggHashTable>, AllocError>
    requires some { 0 < partitions }
    requires shape { local.old.shape ≡ shape_of (query_tree query.now) }
    requires few { HoldFewer local.old.shape local.old.groups 0 }
    ensures count { IfOk result (λ v. length v.items ≡ partitions) }
    ensures parts { IfOk result (λ v. (p : ℕ) (d : _) → p < partitions
        → IsPartOf partitions p local.old (slice_index_or v.items p d)) }
{
    let mut parts = Vec::with_capacity(alloc, partitions)?;
    put_parts(alloc, query, partitions, local, &mut parts)?;
    Ok(parts)
}

/// For each of so many partitions, in order, a table of the groups of a local table whose keys lie there.
pub(crate) fn cut_by_partition(
    alloc: Global,
    query: &CheckedQuery<'_>,
    partitions: usize,
    mut local: AggHashTable,
) -> Result<Vec<AggHashTable>, AllocError>
    requires some { 0 < partitions }
    requires shape { local.shape ≡ shape_of (query_tree query.now) }
    requires few { HoldFewer local.shape local.groups 0 }
    ensures count { IfOk result (λ v. length v.items ≡ partitions) }
    ensures parts { IfOk result (λ v. (p : ℕ) (d : _) → p < partitions
        → IsPartOf partitions p local (slice_index_or v.items p d)) }
{
    let parts = taken_parts(alloc, query, partitions, &mut local);
    drop(local);
    parts
}
