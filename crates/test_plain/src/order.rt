//! The order of the groups of the plain program.

ghost use Rattle.std.specs.Prelude.{◌≡◌, ◌<◌, All, IfOk, map};
ghost use Rattle.std.specs.Ordering.{nat_cmp};
ghost use Rattle.pipe_columns.specs.Key.{partition as partition_due};
ghost use Rattle.pipe_columns.specs.Place.{place_cmp};
ghost use Rattle.pipe_columns.specs.Slice.{sliced as kept};
ghost use Rattle.pipe_spill.specs.KeyTypes.{AreOfTypes};
ghost use Rattle.pipe_columns.specs.StableSort.{IsSortedStably};

use crate::groups::Group;
use pipe_columns::DataType;
use pipe_spill::{encode_key_into, partition_of};
use std::alloc::{AllocError, Global};

/// The groups of a table in the order of their first rows.
pub fn by_first_row(mut table: Vec<Group>) -> Result<Vec<Group>, AllocError>
    ensures { IfOk result (λ sorted. IsSortedStably (λ g. g.first) place_cmp
        table.items sorted.items) }
{
    table.sort_by_key(|group| group.first)?;
    Ok(table)
}

/// A group and the partition of its key.
#[derive(Drop)]
pub struct Placed {
    pub partition: usize,
    pub group: Group,
}

ghost use Rattle.test_plain.specs.Order.{ArePlaced};

/// The groups of a table with the partitions of their keys.
fn with_partitions(
    alloc: Global,
    table: Vec<Group>,
    types: &[DataType],
    partitions: usize,
) -> Result<Vec<Placed>, AllocError>
    requires some { 0 < partitions }
    requires typed { All (λ g. AreOfTypes types.now g.key.items) table.items }
    ensures { IfOk result (λ v. ArePlaced partitions types.now table.items v.items) }
{
    let mut code = Vec::new(alloc);
    let mut placed = Vec::new(alloc);
    for group in table {
        encode_key_into(&mut code, &group.key, types)?;
        let partition = partition_of(&code, partitions);
        placed.push(Placed { partition, group })?;
    }
    Ok(placed)
}

/// The groups alone.
fn groups_of(alloc: Global, placed: Vec<Placed>) -> Result<Vec<Group>, AllocError>
    ensures { IfOk result (λ table. table.items ≡ map (λ p. p.group) placed.items) }
{
    let mut table = Vec::new(alloc);
    for place in placed {
        table.push(place.group)?;
    }
    Ok(table)
}

/// The groups of a table in the order of their partitions.
pub fn by_partition(
    alloc: Global,
    table: Vec<Group>,
    types: &[DataType],
    partitions: usize,
) -> Result<Vec<Group>, AllocError>
    requires some { 0 < partitions }
    requires typed { All (λ g. AreOfTypes types.now g.key.items) table.items }
    ensures { IfOk result (λ sorted. IsSortedStably
        (λ g. partition_due partitions types.now g.key.items) nat_cmp table.items sorted.items) }
{
    let mut placed = with_partitions(alloc, table, types, partitions)?;
    placed.sort_by_key(|place| place.partition)?;
    groups_of(alloc, placed)
}

/// The groups that a slice keeps.
pub fn sliced(mut table: Vec<Group>, slice: Option<(usize, usize)>) -> Vec<Group>
    ensures { result.items ≡ kept slice table.items }
{
    if let Some((offset, len)) = slice {
        let dropped = offset.min(table.len());
        table.drain(..dropped);
        table.truncate(len);
    }
    table
}
