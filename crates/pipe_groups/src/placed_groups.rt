//! The rows of groups that wait for the order of their first places.

ghost use Rattle.std.specs.Prelude.{◌≡◌, IfOk, length, OnErr, OnOk};
ghost use Rattle.std.specs.List.{IsDistinct};
ghost use Rattle.std.specs.Ordering.{eq_by_cmp};
ghost use Rattle.pipe_columns.specs.Frame.{fields_of, frame_of};
ghost use Rattle.pipe_columns.specs.Place.{place_cmp};
ghost use Rattle.pipe_columns.specs.Slice.{sliced};
ghost use Rattle.pipe_groups.specs.Given.{slice_after};
ghost use Rattle.pipe_groups.specs.Placed.{rows_by_place};

use crate::picked::picked;
use crate::place_order::order_of_places;
use crate::places::Places;
use crate::slices::{left_of, taken_by};
use pipe_columns::DataFrame;
use std::alloc::{AllocError, Global};

/// A frame with a row for each group, and the least place of the rows of each.
#[derive(Drop)]
pub struct PlacedGroups {
    pub frame: DataFrame,
    pub firsts: Places,
}

impl PlacedGroups {
    /// The frame's rows in the order of their places, under a slice, of which less is then left.
    pub fn in_order_of_rows(
        &self,
        alloc: Global,
        slice: &mut Option<(usize, usize)>,
    ) -> Result<DataFrame, AllocError>
        requires height { length self.now.firsts ≡ self.now.frame.height }
        requires distinct { IsDistinct (eq_by_cmp place_cmp) self.now.firsts }
        ensures frame { IfOk result (λ f. f ≡ frame_of (fields_of self.now.frame.columns)
            (sliced slice.old (rows_by_place self.now.firsts self.now.frame))) }
        ensures slice { OnOk result
            (slice.new ≡ slice_after (length self.now.firsts) slice.old) }
        ensures err { OnErr result (slice.new ≡ slice.old) }
    {
        let order = order_of_places(alloc, self.firsts.as_slice())?;
        let frame = picked(alloc, &self.frame, taken_by(&order, *slice))?;
        *slice = left_of(*slice, order.len());
        Ok(frame)
    }
}
