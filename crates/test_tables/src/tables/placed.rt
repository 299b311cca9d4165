//! Groups in the order of their first rows.

ghost use Rattle.std.specs.Prelude.{◌≡◌, length};
ghost use Rattle.std.specs.List.{IsDistinct};
ghost use Rattle.std.specs.Ordering.{eq_by_cmp};
ghost use Rattle.pipe_columns.specs.Place.{place_cmp};

use pipe_columns::{DataFrame, Place};
use pipe_groups::{PlacedGroups, Places};
use std::alloc::{AllocError, Global};
use std::test::Fail;

/// The first places of four groups, which are apart.
const FIRSTS: [Place; 4] = [
    Place { chunk: 0, row: 1 },
    Place { chunk: 0, row: 4 },
    Place { chunk: 0, row: 2 },
    Place { chunk: 0, row: 0 },
];

/// Rows in the order of their places, under a slice, asked for again where memory was wanting.
fn in_order(
    alloc: Global,
    placed: &PlacedGroups,
    slice: &mut Option<(usize, usize)>,
) -> Result<DataFrame, AllocError>
    requires height { length placed.now.firsts ≡ placed.now.frame.height }
    requires distinct { IsDistinct (eq_by_cmp place_cmp) placed.now.firsts }
{
    match placed.in_order_of_rows(alloc, slice) {
        Ok(frame) => Ok(frame),
        Err(AllocError) => placed.in_order_of_rows(alloc, slice),
    }
}

/// The rows of a frame of four in the order of their first places, under a slice.
pub(crate) fn ordered(
    alloc: Global,
    frame: DataFrame,
    slice: &mut Option<(usize, usize)>,
) -> Result<DataFrame, Fail> {
    if frame.height() != 4 {
        return Err("not four groups".into());
    }
    let firsts = Places::new(Vec::from_array(alloc, FIRSTS)?);
    let placed = PlacedGroups { frame, firsts };
    let ordered = in_order(alloc, &placed, slice);
    drop(placed);
    Ok(ordered?)
}
