//! How groups become a frame in another order than that of their keys.

ghost use Rattle.std.specs.Prelude.{◌≡◌, ◌<◌, ◌≤◌, ◌^◌, [], All, IfOk, length, map, nat_eq, OnErr, OnOk};
ghost use Rattle.std.specs.List.{IsDistinct};
ghost use Rattle.std.specs.Ordering.{eq_by_cmp};
ghost use Rattle.std.specs.Str.{bytes_eq};
ghost use Rattle.pipe_columns.specs.Place.{place_cmp};
ghost use Rattle.pipe_columns.specs.Slice.{sliced};
ghost use Rattle.pipe_groups.specs.Given.{CanGive, IsFrameOfGroups};
ghost use Rattle.pipe_groups.specs.Groups.{count_held, group_of, HasGroups, held_groups, group_keys};
ghost use Rattle.pipe_groups.specs.Placed.{groups_by_place, HaveFirstsApart, in_order_of_parts, IsFrameByRow, key_places};

use crate::groups::Groups;
use crate::slices::taken_by;
use crate::turns::in_turn;
use pipe_columns::{DataFrame, Place};
use pipe_spill::partition_of;
use std::alloc::AllocError;

impl Groups {
    /// The frame of the groups that hold rows, in the order of the least places of these, under a
    /// slice. No group is left. Where memory is wanting, all stays as it was.
    pub fn finalize_by_row(
        &mut self,
        slice: Option<(usize, usize)>,
    ) -> Result<DataFrame, AllocError>
        requires apart { IsDistinct bytes_eq (group_keys self.old.groups) }
        requires gives { All (CanGive self.old.shape) (held_groups self.old.groups) }
        requires firsts { HaveFirstsApart self.old.groups }
        ensures frame { IfOk result (λ f. IsFrameByRow self.old.shape self.old.groups slice f) }
        ensures emptied { OnOk result (HasGroups self.old self.new []) }
        ensures err { OnErr result (HasGroups self.old self.new self.old.groups) }
    {
        let order = self.ordered()?;
        let firsts = self.first_places(&order)?;
        let frame = self.give_by_place(&order, &firsts, slice)?;
        Ok(frame)
    }

    /// The frame of the groups that hold rows, partition by partition and by key in each, under a
    /// slice. No group is left. Where memory is wanting, all stays as it was.
    pub fn finalize_by_partition(
        &mut self,
        partitions: usize,
        slice: Option<(usize, usize)>,
    ) -> Result<DataFrame, AllocError>
        requires apart { IsDistinct bytes_eq (group_keys self.old.groups) }
        requires gives { All (CanGive self.old.shape) (held_groups self.old.groups) }
        requires some { 0 < partitions }
        requires few { partitions ≤ 2 ^ 32 }
        requires held { count_held self.old.groups ≤ 2 ^ 32 }
        ensures frame { IfOk result (λ f. IsFrameOfGroups self.old.shape
            (sliced slice (in_order_of_parts partitions self.old.groups)) f) }
        ensures emptied { OnOk result (HasGroups self.old self.new []) }
        ensures err { OnErr result (HasGroups self.old self.new self.old.groups) }
    {
        let order = self.ordered()?;
        let places = self.part_places(&order, partitions)?;
        let frame = self.give_by_place(&order, &places, slice)?;
        Ok(frame)
    }

    /// For each of some groups the partition of its key, and its number among them, as a place.
    fn part_places(&self, order: &[usize], partitions: usize) -> Result<Vec<Place>, AllocError>
        requires within { All (λ i. i < length self.now.groups) order.now }
        requires some { 0 < partitions }
        requires few { partitions ≤ 2 ^ 32 }
        requires held { length order.now ≤ 2 ^ 32 }
        ensures { IfOk result (λ v. v.items
            ≡ key_places partitions 0 (map (λ i. (group_of self.now.groups i).key) order.now)) }
    {
        let mut places = Vec::with_capacity(*self.entries.allocator(), order.len())?;
        for at in 0..order.len() {
            let chunk = partition_of(self.key(order[at]), partitions) as u32;
            let row = at as u32;
            places.push(Place { chunk, row })?;
        }
        Ok(places)
    }

    /// The frame of some groups, in the order of places that they have, under a slice. No group is
    /// left. All memory is had before anything changes.
    fn give_by_place(
        &mut self,
        order: &[usize],
        places: &[Place],
        slice: Option<(usize, usize)>,
    ) -> Result<DataFrame, AllocError>
        requires within { All (λ i. i < length self.old.groups) order.now }
        requires once { IsDistinct nat_eq order.now }
        requires gives { All (CanGive self.old.shape) (map (group_of self.old.groups) order.now) }
        requires count { length places.now ≡ length order.now }
        requires distinct { IsDistinct (eq_by_cmp place_cmp) places.now }
        ensures frame { IfOk result (λ f. IsFrameOfGroups self.old.shape (sliced slice
            (groups_by_place places.now (map (group_of self.old.groups) order.now))) f) }
        ensures emptied { OnOk result (HasGroups self.old self.new []) }
        ensures err { OnErr result (HasGroups self.old self.new self.old.groups) }
    {
        let turns = in_turn(*self.entries.allocator(), order, places)?;
        let frame = self.give(taken_by(&turns, slice))?;
        Ok(frame)
    }
}
