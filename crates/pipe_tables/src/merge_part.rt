//! The groups of a partition that are merged into others.

ghost use Rattle.std.specs.Prelude.{◌≡◌, List, None, Some, if◌then◌else◌, ℕ};
ghost use Rattle.std.specs.List.{IsDistinct};
ghost use Rattle.std.specs.Str.{bytes_eq};
ghost use Rattle.pipe_groups.specs.Groups.{AreJoined, count_held, Covers, held_at, held_bytes, group_keys, RowlessAreFresh};
ghost use Rattle.pipe_keyed.specs.Merges.{MayMerge};
ghost use Rattle.pipe_tables.specs.Parts.{ArePartsOf};
ghost use Rattle.pipe_tables.specs.Tables.{groups_in, lies_in};

use crate::by_hash::ByHash;
use crate::parts::Parts;
use pipe_keyed::KeyedGroups;

/// Takes the rows of the groups of a partition of others in, along its chain. It needs no memory.
pub(crate) fn take_part(
    own: &mut KeyedGroups<ByHash>,
    other: &mut KeyedGroups<ByHash>,
    parts: &Parts,
    partition: usize,
)
    requires may { MayMerge own.old other.old }
    requires parts { ArePartsOf other.old.groups (Some parts.now) }
    requires room { Covers own.old
        (count_held (groups_in parts.now.partitions partition other.old.groups))
        (held_bytes (groups_in parts.now.partitions partition other.old.groups)) }
    ensures joined { AreJoined own.old.shape.prototypes own.old.groups
        (groups_in parts.now.partitions partition other.old.groups) own.new.groups }
    ensures shape { own.new.shape ≡ own.old.shape }
    ensures apart { IsDistinct bytes_eq (group_keys own.new.groups) }
    ensures fresh { RowlessAreFresh own.old.shape.prototypes own.new.groups }
    ensures rest { (k : List ℕ) → held_at k other.new.groups
        ≡ (if lies_in parts.now.partitions partition k then None else held_at k other.old.groups) }
    ensures other_shape { other.new.shape ≡ other.old.shape }
    ensures keys { group_keys other.new.groups ≡ group_keys other.old.groups }
    ensures other_fresh { RowlessAreFresh own.old.shape.prototypes other.new.groups }
{
    let mut at = parts.chains.last(partition as u64);
    while let Some(index) = at {
        if other.has_rows(index) {
            own.take(other, index);
        }
        at = parts.chains.before(index);
    }
}
