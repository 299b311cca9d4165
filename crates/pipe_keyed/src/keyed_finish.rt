//! How groups that are found by their keys become a frame.

ghost use Rattle.std.specs.Prelude.{◌≡◌, ◌<◌, ◌≤◌, ◌^◌, [], All, IfOk, OnErr, OnOk};
ghost use Rattle.std.specs.List.{IsDistinct};
ghost use Rattle.std.specs.Str.{bytes_eq};
ghost use Rattle.pipe_columns.specs.Slice.{sliced};
ghost use Rattle.pipe_groups.specs.Given.{CanGive, in_order, IsFrameOfGroups, slice_after};
ghost use Rattle.pipe_groups.specs.Placed.{HaveFirstsApart, in_order_of_parts, IsFrameByRow};
ghost use Rattle.pipe_groups.specs.QueryRows.{ArePlaced};
ghost use Rattle.pipe_groups.specs.Groups.{count_held, HasGroups, held_groups, group_keys};

use crate::keyed_groups::KeyedGroups;
use crate::marking::Marking;
use pipe_columns::DataFrame;
use pipe_groups::{GroupPieces, PlacedGroups};
use std::alloc::AllocError;

impl<M: Marking> KeyedGroups<M> {
    /// The frame of the groups that hold rows, in the order of their keys, under a slice. No group is
    /// left, nor their memory.
    pub fn finalize(&mut self, slice: &mut Option<(usize, usize)>) -> Result<DataFrame, AllocError>
        requires apart { IsDistinct bytes_eq (group_keys self.old.groups) }
        requires gives { All (CanGive self.old.shape) (held_groups self.old.groups) }
        ensures frame { IfOk result (λ f. IsFrameOfGroups self.old.shape
            (sliced slice.old (in_order self.old.groups)) f) }
        ensures emptied { OnOk result (HasGroups self.old self.new []) }
        ensures slice { OnOk result
            (slice.new ≡ slice_after (count_held self.old.groups) slice.old) }
        ensures err { OnErr result (HasGroups self.old self.new self.old.groups) }
        ensures slice_err { OnErr result (slice.new ≡ slice.old) }
    {
        let frame = self.groups.finalize(slice)?;
        self.chains = self.chains.split();
        Ok(frame)
    }

    /// The groups that hold rows, to be given piece by piece in the order of their keys, under a
    /// slice, of which less is then left. No group is left here. Where memory is wanting, all stays
    /// as it was.
    pub fn in_pieces(
        &mut self,
        slice: &mut Option<(usize, usize)>,
    ) -> Result<GroupPieces, AllocError>
        requires apart { IsDistinct bytes_eq (group_keys self.old.groups) }
        requires gives { All (CanGive self.old.shape) (held_groups self.old.groups) }
        ensures pieces { IfOk result (λ p. p ≡ record {
          shape = self.old.shape;
          left = sliced slice.old (in_order self.old.groups);
        }) }
        ensures emptied { OnOk result (HasGroups self.old self.new []) }
        ensures slice { OnOk result
            (slice.new ≡ slice_after (count_held self.old.groups) slice.old) }
        ensures err { OnErr result (HasGroups self.old self.new self.old.groups) }
        ensures slice_err { OnErr result (slice.new ≡ slice.old) }
    {
        let pieces = self.groups.in_pieces(slice)?;
        self.chains = self.chains.split();
        Ok(pieces)
    }

    /// The frame of all groups that hold rows, in the order of their keys, with their first places.
    pub fn finalize_placed(&mut self) -> Result<PlacedGroups, AllocError>
        requires apart { IsDistinct bytes_eq (group_keys self.old.groups) }
        requires gives { All (CanGive self.old.shape) (held_groups self.old.groups) }
        ensures placed { IfOk result (λ p.
            ArePlaced self.old.shape self.old.groups p.frame p.firsts) }
        ensures emptied { OnOk result (HasGroups self.old self.new []) }
        ensures err { OnErr result (HasGroups self.old self.new self.old.groups) }
    {
        let placed = self.groups.finalize_placed()?;
        self.chains = self.chains.split();
        Ok(placed)
    }

    /// The frame of the groups that hold rows, in the order of the least places of these, under a
    /// slice.
    pub fn finalize_by_row(
        &mut self,
        slice: Option<(usize, usize)>,
    ) -> Result<DataFrame, AllocError>
        requires apart { IsDistinct bytes_eq (group_keys self.old.groups) }
        requires gives { All (CanGive self.old.shape) (held_groups self.old.groups) }
        requires firsts { HaveFirstsApart self.old.groups }
        ensures frame { IfOk result (λ f. IsFrameByRow self.old.shape self.old.groups slice f) }
        ensures emptied { OnOk result (HasGroups self.old self.new []) }
        ensures err { OnErr result (HasGroups self.old self.new self.old.groups) }
    {
        let frame = self.groups.finalize_by_row(slice)?;
        self.chains = self.chains.split();
        Ok(frame)
    }

    /// The frame of the groups that hold rows, partition by partition and by key in each, under a
    /// slice.
    pub fn finalize_by_partition(
        &mut self,
        partitions: usize,
        slice: Option<(usize, usize)>,
    ) -> Result<DataFrame, AllocError>
        requires apart { IsDistinct bytes_eq (group_keys self.old.groups) }
        requires gives { All (CanGive self.old.shape) (held_groups self.old.groups) }
        requires some { 0 < partitions }
        requires few { partitions ≤ 2 ^ 32 }
        requires held { count_held self.old.groups ≤ 2 ^ 32 }
        ensures frame { IfOk result (λ f. IsFrameOfGroups self.old.shape
            (sliced slice (in_order_of_parts partitions self.old.groups)) f) }
        ensures emptied { OnOk result (HasGroups self.old self.new []) }
        ensures err { OnErr result (HasGroups self.old self.new self.old.groups) }
    {
        let frame = self.groups.finalize_by_partition(partitions, slice)?;
        self.chains = self.chains.split();
        Ok(frame)
    }
}
