//! Tables that are combined.

ghost use Rattle.std.specs.Prelude.{◌≡◌, ◌<◌, [], List, None, OnErr, OnOk, if◌then◌else◌, ℕ};
ghost use Rattle.pipe_groups.specs.Groups.{AreJoined, held_at};
ghost use Rattle.pipe_keyed.specs.Tables.{HasGroups, HoldFewTogether, KeepsShape};
ghost use Rattle.pipe_tables.specs.Tables.{groups_in, lies_in};

use crate::hash_table::AggHashTable;
use crate::merge_part::take_part;
use crate::part_size::make_room_for_part;
use crate::parts::parts_for;
use pipe_keyed::take_all;
use std::alloc::AllocError;

impl AggHashTable {
    /// Takes the rows of another table in, which is then empty. The limit is lifted meanwhile.
    pub fn combine(&mut self, other: &mut AggHashTable) -> Result<(), AllocError>
        requires shape { other.old.shape ≡ self.old.shape }
        requires few { HoldFewTogether self.old other.old }
        ensures joined { OnOk result (AreJoined self.old.shape.prototypes
            self.old.groups other.old.groups self.new.groups) }
        ensures shape { KeepsShape self.old self.new }
        ensures emptied { OnOk result (HasGroups other.old other.new []) }
        ensures err { OnErr result (HasGroups self.old self.new self.old.groups) }
        ensures other_err { OnErr result (HasGroups other.old other.new other.old.groups) }
    {
        self.keyed
            .make_room(other.keyed.held(), other.keyed.key_bytes())?;
        take_all(&mut self.keyed, &mut other.keyed);
        self.parts = None;
        other.keyed.clear();
        other.parts = None;
        Ok(())
    }

    /// Takes the rows in whose keys lie in a partition of another table, which keeps the rest.
    ///
    /// The first call looks at all groups of the other table, to chain them by partition, and the
    /// chains are kept until a new key comes. Each call then goes along its own partition's chain, so
    /// calls for all partitions in turn cost time linear in the groups in all. Room is made for the
    /// groups of the partition alone.
    pub fn combine_on_partition(
        &mut self,
        partition: usize,
        partitions: usize,
        other: &mut AggHashTable,
    ) -> Result<(), AllocError>
        requires some { 0 < partitions }
        requires shape { other.old.shape ≡ self.old.shape }
        requires few { HoldFewTogether self.old other.old }
        ensures joined { OnOk result (AreJoined self.old.shape.prototypes self.old.groups
            (groups_in partitions partition other.old.groups) self.new.groups) }
        ensures shape { KeepsShape self.old self.new }
        ensures rest { OnOk result ((k : List ℕ) → held_at k other.new.groups
            ≡ (if lies_in partitions partition k then None else held_at k other.old.groups)) }
        ensures other_shape { KeepsShape other.old other.new }
        ensures err { OnErr result (HasGroups self.old self.new self.old.groups) }
        ensures other_err { OnErr result (HasGroups other.old other.new other.old.groups) }
    {
        let parts = parts_for(other.parts.take(), &other.keyed, partitions)?;
        make_room_for_part(&mut self.keyed, &other.keyed, &parts, partition)?;
        self.parts = None;
        take_part(&mut self.keyed, &mut other.keyed, &parts, partition);
        other.parts = Some(parts);
        Ok(())
    }
}
