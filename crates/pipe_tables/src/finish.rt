//! What a table gives.

ghost use Rattle.std.specs.Prelude.{◌≡◌, [], IfOk, map, OnErr, OnOk, Some};
ghost use Rattle.pipe_columns.specs.Slice.{sliced};
ghost use Rattle.pipe_groups.specs.Given.{in_order, IsFrameOfGroups, slice_after};
ghost use Rattle.pipe_groups.specs.Groups.{count_held};
ghost use Rattle.pipe_keyed.specs.Tables.{HasGroups, IsTable};

use crate::hash_table::AggHashTable;
use pipe_columns::DataFrame;
use pipe_groups::{GroupPieces, PlacedGroups};
use std::alloc::AllocError;

impl AggHashTable {
    /// Gives the groups in the order of their keys, under a slice, of which less is then left. None
    /// is left, nor their memory. Where memory is wanting, all stays as it was.
    pub fn finalize(&mut self, slice: &mut Option<(usize, usize)>) -> Result<DataFrame, AllocError>
        ensures frame { IfOk result (λ f. IsFrameOfGroups self.old.shape
            (sliced slice.old (in_order self.old.groups)) f) }
        ensures slice { OnOk result
            (slice.new ≡ slice_after (count_held self.old.groups) slice.old) }
        ensures emptied { OnOk result (HasGroups self.old self.new []) }
        ensures err { OnErr result (HasGroups self.old self.new self.old.groups) }
        ensures slice_err { OnErr result (slice.new ≡ slice.old) }
        ensures table { IsTable self.old }
    {
        let frame = self.keyed.finalize(slice)?;
        self.parts = None;
        Ok(frame)
    }

    /// The groups, to be given piece by piece in the order of their keys, under a slice, of which less
    /// is then left. None is left here. Where memory is wanting, all stays as it was.
    pub fn in_pieces(
        &mut self,
        slice: &mut Option<(usize, usize)>,
    ) -> Result<GroupPieces, AllocError>
        ensures pieces { IfOk result (λ p. p ≡ record {
          shape = self.old.shape;
          left = sliced slice.old (in_order self.old.groups);
        }) }
        ensures slice { OnOk result
            (slice.new ≡ slice_after (count_held self.old.groups) slice.old) }
        ensures emptied { OnOk result (HasGroups self.old self.new []) }
        ensures err { OnErr result (HasGroups self.old self.new self.old.groups) }
        ensures slice_err { OnErr result (slice.new ≡ slice.old) }
        ensures table { IsTable self.old }
    {
        let pieces = self.keyed.in_pieces(slice)?;
        self.parts = None;
        Ok(pieces)
    }

    /// Gives all groups in the order of their keys, each with the least place of its rows. None is
    /// left. Where memory is wanting, all stays as it was.
    pub fn finalize_placed(&mut self) -> Result<PlacedGroups, AllocError>
        ensures frame { IfOk result (λ p.
            IsFrameOfGroups self.old.shape (in_order self.old.groups) p.frame) }
        ensures firsts { IfOk result (λ p.
            map Some p.firsts ≡ map (λ g. g.first) (in_order self.old.groups)) }
        ensures emptied { OnOk result (HasGroups self.old self.new []) }
        ensures err { OnErr result (HasGroups self.old self.new self.old.groups) }
        ensures table { IsTable self.old }
    {
        let placed = self.keyed.finalize_placed()?;
        self.parts = None;
        Ok(placed)
    }
}
