//! Rows in the order of their places.

ghost use Rattle.std.specs.Prelude.{◌≡◌, All, IfOk, length, map};
ghost use Rattle.std.specs.List.{IsDistinct};
ghost use Rattle.std.specs.Ordering.{eq_by_cmp};
ghost use Rattle.pipe_columns.specs.Groups.{sorted_keys};
ghost use Rattle.pipe_columns.specs.Place.{place_cmp};
ghost use Rattle.pipe_groups.specs.PlacedRanks.{IsRowAt, place_at};

use pipe_columns::Place;
use std::alloc::{AllocError, Global};

/// A row that is put in order: by its place, then by its number.
#[derive(Clone, Copy, Debug, PartialEq, Eq, PartialOrd, Ord)]
pub(crate) struct PlacedRow {
    pub(crate) place: Place,
    pub(crate) row: usize,
}

/// The rows of places, as they stand.
fn placed_rows(alloc: Global, places: &[Place]) -> Result<Vec<PlacedRow>, AllocError>
    ensures places { IfOk result (λ v. map (λ r. r.place) v.items ≡ places.now) }
    ensures each { IfOk result (λ v. All (IsRowAt places.now) v.items) }
{
    let mut rows = Vec::with_capacity(alloc, places.len())?;
    for row in 0..places.len() {
        let place = places[row];
        rows.push(PlacedRow { place, row })?;
    }
    Ok(rows)
}

/// The numbers of rows.
pub(crate) fn numbers(alloc: Global, rows: &[PlacedRow]) -> Result<Vec<usize>, AllocError>
    ensures { IfOk result (λ v. v.items ≡ map (λ r. r.row) rows.now) }
{
    rows.iter().map(|row| row.row).collect(alloc)
}

/// The numbers of the rows in the order of their places.
pub(crate) fn order_of_places(alloc: Global, places: &[Place]) -> Result<Vec<usize>, AllocError>
    requires { IsDistinct (eq_by_cmp place_cmp) places.now }
    ensures order { IfOk result (λ v.
        v.items ≡ map (place_at places.now) (sorted_keys place_cmp places.now)) }
    ensures count { IfOk result (λ v. length v.items ≡ length places.now) }
{
    let mut rows = placed_rows(alloc, places)?;
    rows.sort_unstable();
    let order = numbers(alloc, &rows)?;
    Ok(order)
}
