//! Where groups stand, in the order of places.

ghost use Rattle.std.specs.Prelude.{◌≡◌, IfOk, length, map};
ghost use Rattle.std.specs.List.{IsDistinct};
ghost use Rattle.std.specs.List.Sorted.{IsPermutation};
ghost use Rattle.std.specs.Ordering.{eq_by_cmp};
ghost use Rattle.pipe_columns.specs.Groups.{sorted_keys};
ghost use Rattle.pipe_columns.specs.Place.{place_cmp};
ghost use Rattle.pipe_groups.specs.PlacedRanks.{turn_at};

use crate::place_order::{PlacedRow, numbers};
use pipe_columns::Place;
use std::alloc::{AllocError, Global};

/// The groups of an order, as they stand there, each with its place.
fn placed_turns(
    alloc: Global,
    order: &[usize],
    places: &[Place],
) -> Result<Vec<PlacedRow>, AllocError>
    requires { length places.now ≡ length order.now }
    ensures places { IfOk result (λ v. map (λ r. r.place) v.items ≡ places.now) }
    ensures order { IfOk result (λ v. map (λ r. r.row) v.items ≡ order.now) }
{
    let mut rows = Vec::with_capacity(alloc, places.len())?;
    for at in 0..places.len() {
        let place = places[at];
        let row = order[at];
        rows.push(PlacedRow { place, row })?;
    }
    Ok(rows)
}

/// The groups of an order, each with a place, in the order of these.
pub(crate) fn in_turn(
    alloc: Global,
    order: &[usize],
    places: &[Place],
) -> Result<Vec<usize>, AllocError>
    requires count { length places.now ≡ length order.now }
    requires distinct { IsDistinct (eq_by_cmp place_cmp) places.now }
    ensures turns { IfOk result (λ v. v.items
        ≡ map (turn_at places.now order.now) (sorted_keys place_cmp places.now)) }
    ensures moved { IfOk result (λ v. IsPermutation order.now v.items) }
{
    let mut rows = placed_turns(alloc, order, places)?;
    rows.sort_unstable();
    let turns = numbers(alloc, &rows)?;
    Ok(turns)
}
