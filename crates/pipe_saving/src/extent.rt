//! How far the rows of groups go.

ghost use Rattle.std.specs.Prelude.{◌≡◌, ◌+◌, ◌<◌, ◌≤◌, ◌^◌, ◌∷◌, ◌++◌, [], All, IfOk, length, map, OnOk, slice_set};
ghost use Rattle.pipe_saving.specs.Lists.{extent_at, with_place};

use pipe_columns::Place;
use std::alloc::{AllocError, Global};

/// The greatest place of a group's rows, and how many they are.
#[derive(Clone, Copy, Debug)]
pub(crate) struct Extent {
    pub(crate) last: Place,
    pub(crate) rows: u32,
}

/// Puts the place of one more row to the extent of its group. One that is new stands behind all
/// others.
#[inline(always)]
pub(crate) fn put_place(
    extents: &mut Vec<Extent>,
    index: usize,
    place: Place,
) -> Result<(), AllocError>
    requires few { All (λ e. e.rows + 1 < 2 ^ 32) extents.old.items }
    ensures there { OnOk result (index < length extents.old.items → extents.new.items
        ≡ slice_set extents.old.items index
        (with_place place (extent_at extents.old.items index))) }
    ensures new { OnOk result (length extents.old.items ≤ index → extents.new.items
        ≡ extents.old.items ++ (record { last = place; rows = 1 }) ∷ []) }
{
    if index < extents.len() {
        let extent = &mut extents[index];
        extent.rows += 1;
        if extent.last < place {
            extent.last = place;
        }
    } else {
        extents.push(Extent {
            last: place,
            rows: 1,
        })?;
    }
    Ok(())
}

/// The extents at some indices, in turn.
pub(crate) fn in_turn(
    alloc: Global,
    extents: &[Extent],
    order: &[usize],
) -> Result<Vec<Extent>, AllocError>
    requires { All (λ i. i < length extents.now) order.now }
    ensures { IfOk result (λ v. v.items ≡ map (extent_at extents.now) order.now) }
{
    let mut turned = Vec::with_capacity(alloc, order.len())?;
    for index in order {
        turned.push(extents[*index])?;
    }
    Ok(turned)
}
