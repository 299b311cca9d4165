//! Groups that are merged into others.

ghost use Rattle.std.specs.Prelude.{◌≡◌};
ghost use Rattle.std.specs.List.{IsDistinct};
ghost use Rattle.std.specs.Str.{bytes_eq};
ghost use Rattle.pipe_groups.specs.Groups.{AreJoined, count_held, Covers, held_bytes, group_keys, RowlessAreFresh};
ghost use Rattle.pipe_keyed.specs.Merges.{MayMerge};

use crate::keyed_groups::KeyedGroups;
use crate::marking::Marking;

/// Takes the rows of all groups of others in. It needs no memory.
pub fn take_all<M: Marking>(own: &mut KeyedGroups<M>, other: &mut KeyedGroups<M>)
    requires may { MayMerge own.old other.old }
    requires room { Covers own.old (count_held other.old.groups) (held_bytes other.old.groups) }
    ensures joined { AreJoined own.old.shape.prototypes own.old.groups other.old.groups
        own.new.groups }
    ensures shape { own.new.shape ≡ own.old.shape }
    ensures apart { IsDistinct bytes_eq (group_keys own.new.groups) }
    ensures fresh { RowlessAreFresh own.old.shape.prototypes own.new.groups }
    ensures other_shape { other.new.shape ≡ other.old.shape }
{
    for from in 0..other.len() {
        if other.has_rows(from) {
            own.take(other, from);
        }
    }
}
