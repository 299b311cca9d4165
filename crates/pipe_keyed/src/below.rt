//! What lies below groups that are found by marks.

ghost use Rattle.std.specs.Prelude.{◌≡◌, ◌<◌, length};
ghost use Rattle.pipe_groups.specs.Groups.{group_of};

use crate::keyed_groups::KeyedGroups;
use crate::marking::Marking;
use pipe_groups::Groups;
use std::alloc::Global;

impl<M: Marking> KeyedGroups<M> {
    /// The groups alone.
    #[inline(always)]
    pub fn groups(&self) -> &Groups
        ensures shape { result.now.shape ≡ self.now.shape }
        ensures groups { result.now.groups ≡ self.now.groups }
    {
        &self.groups
    }

    /// Where the group of a key of a mark may stand, as a guess that says nothing.
    #[inline(always)]
    pub fn near(&self, mark: u64) -> usize {
        self.chains.near(mark)
    }

    /// The mark of the key of a group.
    #[inline(always)]
    pub fn mark(&self, index: usize) -> u64
        requires { index < length self.now.groups }
        ensures { M.marks self.now.shape.key_types (group_of self.now.groups index).key result }
    {
        self.chains.mark(index)
    }

    /// Where the memory comes from.
    pub fn allocator(&self) -> Global {
        self.chains.allocator()
    }
}
