//! The parts of a slice that fall in partitions.

ghost use Rattle.std.specs.Prelude.{◌≡◌, IfOk, None};
ghost use Rattle.pipe_sinks.specs.Slices.{part_in, parts_of};
ghost use Rattle.pipe_groups.specs.Given.{slice_after};

use std::alloc::{AllocError, Global};

/// What is dropped and kept of so many rows.
fn part_in(len: usize, slice: Option<(usize, usize)>) -> Option<(usize, usize)>
    ensures { result ≡ part_in len slice }
{
    let Some((offset, most)) = slice else {
        return Some((0, len));
    };
    let kept = most.min(len.saturating_sub(offset));
    if kept == 0 {
        return None;
    }
    Some((offset, kept))
}

/// What is left of a slice behind so many rows.
fn slice_behind(len: usize, slice: Option<(usize, usize)>) -> Option<(usize, usize)>
    ensures { result ≡ slice_after len slice }
{
    let (offset, most) = slice?;
    let reached = len.saturating_sub(offset);
    Some((offset.saturating_sub(len), most.saturating_sub(reached)))
}

/// For each partition how many rows a slice over all of them drops there, and how many it keeps. Without
/// a slice all are kept.
pub fn compute_slices(
    alloc: Global,
    lens: &[usize],
    slice: Option<(usize, usize)>,
) -> Result<Vec<Option<(usize, usize)>>, AllocError>
    ensures { IfOk result (λ v. v.items ≡ parts_of lens.now slice) }
{
    let mut parts = Vec::with_capacity(alloc, lens.len())?;
    let mut left = slice;
    for len in lens {
        parts.push(part_in(*len, left))?;
        left = slice_behind(*len, left);
    }
    Ok(parts)
}

/// For each partition all of its rows.
pub fn default_slices(
    alloc: Global,
    lens: &[usize],
) -> Result<Vec<Option<(usize, usize)>>, AllocError>
    ensures { IfOk result (λ v. v.items ≡ parts_of lens.now None) }
{
    compute_slices(alloc, lens, None)
}
