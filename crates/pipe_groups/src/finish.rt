//! How groups become a frame.

ghost use Rattle.std.specs.Prelude.{◌≡◌, ◌<◌, [], ℕ, All, false, IfOk, length, map, nat_eq, OnErr, OnOk, Some, true};
ghost use Rattle.std.specs.List.{IsDistinct};
ghost use Rattle.std.specs.Str.{bytes_eq};
ghost use Rattle.pipe_columns.specs.Slice.{sliced};
ghost use Rattle.pipe_groups.specs.Given.{CanGive, in_order, IsFrameOfGroups, slice_after};
ghost use Rattle.pipe_groups.specs.Groups.{count_held, group_of, HasGroups, has_rows, held_groups, group_keys};

use crate::groups::Groups;
use crate::placed_groups::PlacedGroups;
use crate::places::Places;
use crate::slices::{left_of, taken_by};
use crate::unfinished::finish_all;
use pipe_columns::{DataFrame, Place};
use std::alloc::AllocError;

impl Groups {
    /// The frame of the groups that hold rows, in the order of their keys, under a slice, of which
    /// less is then left. No group is left. Where memory is wanting, all stays as it was.
    pub fn finalize(&mut self, slice: &mut Option<(usize, usize)>) -> Result<DataFrame, AllocError>
        requires apart { IsDistinct bytes_eq (group_keys self.old.groups) }
        requires gives { All (CanGive self.old.shape) (held_groups self.old.groups) }
        ensures frame { IfOk result (λ f. IsFrameOfGroups self.old.shape
            (sliced slice.old (in_order self.old.groups)) f) }
        ensures emptied { OnOk result (HasGroups self.old self.new []) }
        ensures slice { OnOk result
            (slice.new ≡ slice_after (count_held self.old.groups) slice.old) }
        ensures err { OnErr result (HasGroups self.old self.new self.old.groups) }
        ensures slice_err { OnErr result (slice.new ≡ slice.old) }
    {
        let order = self.ordered()?;
        let frame = self.give(taken_by(&order, *slice))?;
        *slice = left_of(*slice, order.len());
        Ok(frame)
    }

    /// The frame of all groups that hold rows, in the order of their keys, with the least place of
    /// the rows of each. No group is left. Where memory is wanting, all stays as it was.
    pub fn finalize_placed(&mut self) -> Result<PlacedGroups, AllocError>
        requires apart { IsDistinct bytes_eq (group_keys self.old.groups) }
        requires gives { All (CanGive self.old.shape) (held_groups self.old.groups) }
        ensures frame { IfOk result (λ p.
            IsFrameOfGroups self.old.shape (in_order self.old.groups) p.frame) }
        ensures firsts { IfOk result (λ p.
            map Some p.firsts ≡ map (λ g. g.first) (in_order self.old.groups)) }
        ensures emptied { OnOk result (HasGroups self.old self.new []) }
        ensures err { OnErr result (HasGroups self.old self.new self.old.groups) }
    {
        let order = self.ordered()?;
        let firsts = self.first_places(&order)?;
        let frame = self.give(&order)?;
        let firsts = Places::new(firsts);
        Ok(PlacedGroups { frame, firsts })
    }

    /// The least places of the rows of groups that hold rows.
    pub(crate) fn first_places(&self, taken: &[usize]) -> Result<Vec<Place>, AllocError>
        requires within { All (λ i. i < length self.now.groups) taken.now }
        requires rows { All (λ i. has_rows (group_of self.now.groups i) ≡ true) taken.now }
        ensures { IfOk result (λ v.
            map Some v.items ≡ map (λ i. (group_of self.now.groups i).first) taken.now) }
    {
        let mut firsts = Vec::with_capacity(*self.entries.allocator(), taken.len())?;
        for index in taken {
            let Some(first) = self.first(*index) else {
                unreachable!()
            };
            firsts.push(first)?;
        }
        Ok(firsts)
    }

    /// The frame of some groups, in turn. No group is left. All memory is had before anything
    /// changes.
    pub(crate) fn give(&mut self, taken: &[usize]) -> Result<DataFrame, AllocError>
        requires within { All (λ i. i < length self.old.groups) taken.now }
        requires once { IsDistinct nat_eq taken.now }
        requires gives { All (CanGive self.old.shape) (map (group_of self.old.groups) taken.now) }
        ensures frame { IfOk result (λ f.
            IsFrameOfGroups self.old.shape (map (group_of self.old.groups) taken.now) f) }
        ensures emptied { OnOk result (HasGroups self.old self.new []) }
        ensures err { OnErr result (HasGroups self.old self.new self.old.groups) }
    {
        let frame = self.give_frame(taken)?;
        self.release();
        Ok(frame)
    }

    /// The frame of some groups, in turn. The other groups stay. All memory is had before anything
    /// changes.
    pub(crate) fn give_frame(&mut self, taken: &[usize]) -> Result<DataFrame, AllocError>
        requires within { All (λ i. i < length self.old.groups) taken.now }
        requires once { IsDistinct nat_eq taken.now }
        requires gives { All (CanGive self.old.shape) (map (group_of self.old.groups) taken.now) }
        ensures frame { IfOk result (λ f.
            IsFrameOfGroups self.old.shape (map (group_of self.old.groups) taken.now) f) }
        ensures shape { self.new.shape ≡ self.old.shape }
        ensures count { length self.new.groups ≡ length self.old.groups }
        ensures others { (k : ℕ) → All (λ i. nat_eq i k ≡ false) taken.now
            → group_of self.new.groups k ≡ group_of self.old.groups k }
        ensures err { OnErr result (HasGroups self.old self.new self.old.groups) }
    {
        let alloc = *self.entries.allocator();
        let keys = self.key_columns(taken)?;
        let mut given = self.given_columns(taken.len())?;
        let mut columns = Vec::with_capacity(alloc, keys.len() + given.len())?;
        self.give_states(taken, &mut given);
        finish_all(keys, &mut columns);
        finish_all(given, &mut columns);
        Ok(DataFrame::new(taken.len(), columns).unwrap())
    }
}
