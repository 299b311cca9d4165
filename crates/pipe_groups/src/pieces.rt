//! Groups that are given piece by piece, so that no frame of all of them is made.

ghost use Rattle.std.specs.Prelude.{◌≡◌, ◌<◌, ◌↔◌, [], All, IfOk, IfSome, None, OnErr, OnOk, drop, take};
ghost use Rattle.std.specs.List.{IsDistinct};
ghost use Rattle.std.specs.Str.{bytes_eq};
ghost use Rattle.pipe_columns.specs.Slice.{sliced};
ghost use Rattle.pipe_groups.specs.Given.{CanGive, in_order, IsFrameOfGroups, slice_after};
ghost use Rattle.pipe_groups.specs.Groups.{count_held, group_keys, HasGroups, held_groups};
ghost use Rattle.pipe_groups.specs.Shape.{IsShape};

use crate::groups::Groups;
use crate::slices::{cut_to, front_of, left_of};
use pipe_columns::DataFrame;
use std::alloc::AllocError;
use std::marker::Model;
use std::mem;

/// Groups that are given piece by piece, in order. Contracts see what they are of, and those that
/// are left.
#[derive(Drop)]
pub struct GroupPieces {
    groups: Groups,
    order: Vec<usize>,
    next: usize,
}

impl Model for GroupPieces {
    ghost use Rattle.pipe_groups.specs.Pieces.{PiecesSeen};
    ghost use Rattle.pipe_groups.specs.PiecesLayout.{ArePieces, seen_in};

    ghost Value = { PiecesSeen };

    ghost view = { seen_in };

    ghost invariant = { ArePieces };
}

impl GroupPieces {
    /// The frame of the next groups, of so many at most, which are then given: none where none is
    /// left. Where memory is wanting, all stays as it was.
    pub fn next_piece(&mut self, most: usize) -> Result<Option<DataFrame>, AllocError>
        requires { 0 < most }
        ensures over { IfOk result (λ given. (given ≡ None) ↔ (self.old.left ≡ [])) }
        ensures frame { IfOk result (λ given. IfSome given
            (IsFrameOfGroups self.old.shape (take most self.old.left))) }
        ensures left { OnOk result
            (self.new ≡ record self.old { left = drop most self.old.left }) }
        ensures err { OnErr result (self.new ≡ self.old) }
        ensures shape { IsShape self.old.shape }
    {
        let GroupPieces {
            groups,
            order,
            next,
        } = self;
        let piece = front_of(&order[*next..], most);
        if piece.len() == 0 {
            return Ok(None);
        }
        let frame = groups.give_frame(piece)?;
        *next += piece.len();
        Ok(Some(frame))
    }
}

impl Groups {
    /// The groups that hold rows, to be given piece by piece in the order of their keys, under a
    /// slice, of which less is then left. No group is left. Where memory is wanting, all stays as it
    /// was.
    pub fn in_pieces(
        &mut self,
        slice: &mut Option<(usize, usize)>,
    ) -> Result<GroupPieces, AllocError>
        requires apart { IsDistinct bytes_eq (group_keys self.old.groups) }
        requires gives { All (CanGive self.old.shape) (held_groups self.old.groups) }
        ensures pieces { IfOk result (λ p. p ≡ record {
          shape = self.old.shape;
          left = sliced slice.old (in_order self.old.groups);
        }) }
        ensures emptied { OnOk result (HasGroups self.old self.new []) }
        ensures slice { OnOk result
            (slice.new ≡ slice_after (count_held self.old.groups) slice.old) }
        ensures err { OnErr result (HasGroups self.old self.new self.old.groups) }
        ensures slice_err { OnErr result (slice.new ≡ slice.old) }
    {
        let alloc = *self.entries.allocator();
        let all = self.ordered()?;
        let held = all.len();
        let order = cut_to(alloc, all, *slice)?;
        let empty = self.split()?;
        let groups = mem::replace(self, empty);
        *slice = left_of(*slice, held);
        Ok(GroupPieces {
            groups,
            order,
            next: 0,
        })
    }
}
