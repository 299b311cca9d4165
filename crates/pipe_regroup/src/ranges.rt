//! Ranges of positions, in order.

ghost use Rattle.std.specs.Prelude.{◌≡◌, ◌≤◌, ◌<◌, ℕ, [], false, IfOk, IsTrue, length, not, slice_index_or};
ghost use Rattle.pipe_regroup.specs.Spread.{AreSpread, HaveNumbersOf, meets};
ghost use Rattle.pipe_regroup.specs.declared.ranges.Range.{Range};

use std::alloc::{AllocError, Global};
use std::marker::Model;

/// Positions from a first one up to but without an end, one at least.
#[derive(Clone, Copy, Drop)]
pub struct Range {
    pub first: u32,
    pub end: u32,
}

/// How many ranges end at a number or before it.
fn count_before(ranges: &[Range], number: u32) -> usize
    requires { AreSpread 0 ranges.now }
    ensures bound { result ≤ length ranges.now }
    ensures before { (k : ℕ) (d : Range) → k < result → k < length ranges.now
        → (slice_index_or ranges.now k d).end ≤ number }
    ensures behind { (d : Range) → result < length ranges.now
        → number < (slice_index_or ranges.now result d).end }
{
    ranges.partition_point(|range| range.end <= number)
}

/// Whether there is a range at a place, and it begins before a number.
fn begins_before(ranges: &[Range], place: usize, number: u32) -> bool
    ensures yes { IsTrue result → (place < length ranges.now)
        × ((d : Range) → (slice_index_or ranges.now place d).first < number) }
    ensures no { result ≡ false → (d : Range) → place < length ranges.now
        → number ≤ (slice_index_or ranges.now place d).first }
{
    match ranges.get(place) {
        Some(range) => range.first < number,
        None => false,
    }
}

/// Ranges of which no two share a number, in order.
#[derive(Drop)]
pub struct Ranges {
    items: Vec<Range>,
}

impl Model for Ranges {
    ghost use Rattle.std.specs.Prelude.{List};
    ghost use Rattle.pipe_regroup.specs.declared.ranges.Range.{Range};
    ghost use Rattle.pipe_regroup.specs.Spread.{AreSpread};

    ghost Value = { List Range };

    ghost view = { λ a. a.items.items };

    ghost invariant = { λ a. AreSpread 0 a.items.items };
}

impl Ranges {
    pub(crate) fn new(alloc: Global) -> Ranges
        ensures { result ≡ [] }
    {
        Ranges {
            items: Vec::new(alloc),
        }
    }

    /// Adds a range, which may be empty, unless it shares a number with one that is there. Whether
    /// it shared none.
    pub(crate) fn add(&mut self, first: u32, end: u32) -> Result<bool, AllocError>
        requires { first ≤ end }
        ensures free { IfOk result (λ free. free ≡ not (meets self.old first end)) }
        ensures added { IfOk result (λ free.
            IsTrue free → HaveNumbersOf self.old first end self.new) }
    {
        if first == end {
            return Ok(true);
        }
        let place = count_before(&self.items, first);
        if begins_before(&self.items, place, end) {
            return Ok(false);
        }
        self.items.insert(place, Range { first, end })?;
        Ok(true)
    }
}
