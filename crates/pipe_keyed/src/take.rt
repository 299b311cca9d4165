//! Groups that are taken into others.

ghost use Rattle.std.specs.Prelude.{◌≡◌, ◌+◌, ◌<◌, ℕ, length, slice_set, true};
ghost use Rattle.pipe_groups.specs.Groups.{Covers, group_of, has_rows, HasGroups, new_group};
ghost use Rattle.pipe_keyed.specs.Merges.{IsTakenInto, MayTake};

use crate::keyed_groups::KeyedGroups;
use crate::marking::Marking;

impl<M: Marking> KeyedGroups<M> {
    /// Takes the rows of a group of others in, which then has none. It needs no memory.
    pub fn take(&mut self, other: &mut KeyedGroups<M>, from: usize)
        requires within { from < length other.old.groups }
        requires shape { other.old.shape ≡ self.old.shape }
        requires rows { has_rows (group_of other.old.groups from) ≡ true }
        requires room { Covers self.old 1 (length (group_of other.old.groups from).key) }
        requires joinable { MayTake self.old.shape.prototypes self.old.groups
            (group_of other.old.groups from) }
        ensures taken { IsTakenInto self.old.shape.prototypes self.old.groups
            (group_of other.old.groups from) self.new.groups }
        ensures shape { self.new.shape ≡ self.old.shape }
        ensures left { HasGroups other.old other.new (slice_set other.old.groups from
            (new_group other.old.shape.prototypes (group_of other.old.groups from).key)) }
        ensures room { (g b : ℕ) → Covers self.old (g + 1)
            (b + length (group_of other.old.groups from).key) → Covers self.new g b }
    {
        let mark = other.chains.mark(from);
        let index = self.cover(mark, other.groups.key(from));
        self.groups.join(index, &mut other.groups, from);
    }
}
