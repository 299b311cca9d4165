//! Groups that are taken into others.

ghost use Rattle.std.specs.Prelude.{◌≡◌, ◌+◌, ◌<◌, None, Some, is_some, length, slice_index_or, slice_set, true, vec_capacity};
ghost use Rattle.pipe_groups.specs.Groups.{AreJoinable, group_of, has_rows, HasGroups, KeepsRoom, new_group, with_group};
ghost use Rattle.pipe_groups.specs.Layout.{no_entry};

use crate::feed::put_place;
use crate::groups::{Entry, Groups};
use pipe_columns::Place;

/// Takes the place of an entry with rows out, which is then not counted.
fn take_place(entries: &mut Vec<Entry>, held: &mut usize, index: usize) -> Place
    requires within { index < length entries.old.items }
    requires some { is_some (slice_index_or entries.old.items index no_entry).first ≡ true }
    requires counted { 0 < held.old }
    ensures place { (slice_index_or entries.old.items index no_entry).first ≡ Some result }
    ensures entries { entries.new.items ≡ slice_set entries.old.items index
        (record (slice_index_or entries.old.items index no_entry) { first = None }) }
    ensures held { held.new + 1 ≡ held.old }
    ensures capacity { vec_capacity entries.new ≡ vec_capacity entries.old }
{
    let entry = &mut entries[index];
    let place = entry.first.take().unwrap();
    *held -= 1;
    place
}

impl Groups {
    /// Takes the rows of a group of others into the group at an index. The other group is then one
    /// without rows, of the same key. It takes no memory.
    pub fn join(&mut self, index: usize, other: &mut Groups, from: usize)
        requires within { index < length self.old.groups }
        requires from { from < length other.old.groups }
        requires shape { other.old.shape ≡ self.old.shape }
        requires rows { has_rows (group_of other.old.groups from) ≡ true }
        requires joinable { AreJoinable (group_of self.old.groups index).states
            (group_of other.old.groups from).states }
        ensures groups { HasGroups self.old self.new (slice_set self.old.groups index
            (with_group (group_of other.old.groups from) (group_of self.old.groups index))) }
        ensures others { HasGroups other.old other.new (slice_set other.old.groups from
            (new_group other.old.shape.prototypes (group_of other.old.groups from).key)) }
        ensures room { KeepsRoom self.old self.new }
        ensures others_room { KeepsRoom other.old other.new }
    {
        self.states.join(index, &mut other.states, from);
        let place = take_place(&mut other.entries, &mut other.held, from);
        put_place(&mut self.entries, &mut self.held, index, place);
    }
}
