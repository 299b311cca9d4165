//! Tables that exchange their groups.

ghost use Rattle.std.specs.Prelude.{◌≡◌, ◌<◌};
ghost use Rattle.pipe_keyed.specs.Tables.{HasGroups};
ghost use Rattle.pipe_tables.specs.Tables.{do_all_lie};

use crate::hash_table::AggHashTable;
use pipe_spill::partition_of;
use std::mem;

impl AggHashTable {
    /// Exchanges its groups with those of another table. The limits stay. It takes no memory.
    pub fn exchange(&mut self, other: &mut AggHashTable)
        requires { other.old.shape ≡ self.old.shape }
        ensures own { HasGroups self.old self.new other.old.groups }
        ensures other { HasGroups other.old other.new self.old.groups }
    {
        mem::swap(&mut self.keyed, &mut other.keyed);
        mem::swap(&mut self.parts, &mut other.parts);
    }

    /// Whether all keys that are held lie in a partition, out of so many. It ends at the first that doesn't.
    pub fn lies_in(&self, partition: usize, partitions: usize) -> bool
        requires { partition < partitions }
        ensures { result ≡ do_all_lie partitions partition self.now.groups }
    {
        if partitions == 1 {
            return true;
        }
        for index in 0..self.keyed.len() {
            let key = self.keyed.key(index);
            if self.keyed.has_rows(index) && partition_of(key, partitions) != partition {
                return false;
            }
        }
        true
    }
}
