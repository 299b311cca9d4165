//! What a slice takes, and what is left of it.

ghost use Rattle.std.specs.Prelude.{◌≡◌, IfOk, take};
ghost use Rattle.pipe_columns.specs.Slice.{sliced};
ghost use Rattle.pipe_groups.specs.Given.{slice_after};

use std::alloc::{AllocError, Global};

/// The indexes that a slice takes.
pub(crate) fn taken_by(order: &[usize], slice: Option<(usize, usize)>) -> &[usize]
    ensures { result.now ≡ sliced slice order.now }
{
    match slice {
        Some((offset, len)) => {
            let rest = &order[offset.min(order.len())..];
            &rest[..len.min(rest.len())]
        }
        None => order,
    }
}

/// The same, in memory of their own.
pub(crate) fn cut_to(
    alloc: Global,
    order: Vec<usize>,
    slice: Option<(usize, usize)>,
) -> Result<Vec<usize>, AllocError>
    ensures { IfOk result (λ v. v.items ≡ sliced slice order.items) }
{
    if slice.is_none() {
        return Ok(order);
    }
    let taken = taken_by(&order, slice);
    let mut own = Vec::with_capacity(alloc, taken.len())?;
    own.extend_from_slice(taken)?;
    Ok(own)
}

/// The first so many indexes, or all where there are no more.
pub(crate) fn front_of(order: &[usize], most: usize) -> &[usize]
    ensures { result.now ≡ take most order.now }
{
    if most < order.len() {
        return &order[..most];
    }
    order
}

/// What is left of a slice behind so many groups.
pub(crate) fn left_of(slice: Option<(usize, usize)>, held: usize) -> Option<(usize, usize)>
    ensures { result ≡ slice_after held slice }
{
    let (offset, len) = slice?;
    let reached = held.saturating_sub(offset);
    Some((offset.saturating_sub(held), len.saturating_sub(reached)))
}
