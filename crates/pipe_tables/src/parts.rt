//! Which groups lie in which partition.

ghost use Rattle.std.specs.Prelude.{◌≡◌, ◌<◌, IfOk, Some};
ghost use Rattle.pipe_tables.specs.Parts.{ArePartsOf};

use crate::by_hash::ByHash;
use pipe_chains::Chains;
use pipe_keyed::KeyedGroups;
use pipe_spill::partition_of;
use std::alloc::AllocError;

/// The groups of a table in chains by the partition of their keys.
#[derive(Drop)]
pub(crate) struct Parts {
    pub(crate) partitions: usize,
    pub(crate) chains: Chains,
}

impl Parts {
    /// The partitions of groups, out of so many.
    pub(crate) fn of(keyed: &KeyedGroups<ByHash>, partitions: usize) -> Result<Parts, AllocError>
        requires { 0 < partitions }
        ensures partitions { IfOk result (λ p. p.partitions ≡ partitions) }
        ensures parts { IfOk result (λ p. ArePartsOf keyed.now.groups (Some p)) }
    {
        let mut chains = Chains::new(keyed.allocator());
        chains.reserve(keyed.len())?;
        for index in 0..keyed.len() {
            let partition = partition_of(keyed.key(index), partitions) as u64;
            chains.push(partition, partition)?;
        }
        Ok(Parts { partitions, chains })
    }
}

/// What was kept of the partitions of groups, where it is of so many, and else made anew.
pub(crate) fn parts_for(
    kept: Option<Parts>,
    keyed: &KeyedGroups<ByHash>,
    partitions: usize,
) -> Result<Parts, AllocError>
    requires some { 0 < partitions }
    requires kept { ArePartsOf keyed.now.groups kept }
    ensures partitions { IfOk result (λ p. p.partitions ≡ partitions) }
    ensures parts { IfOk result (λ p. ArePartsOf keyed.now.groups (Some p)) }
{
    match kept {
        Some(parts) if parts.partitions == partitions => Ok(parts),
        _ => Parts::of(keyed, partitions),
    }
}
