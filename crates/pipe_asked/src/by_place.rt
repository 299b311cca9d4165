//! Groups in the order of their first rows.

ghost use Rattle.std.specs.Prelude.{◌≡◌, ◌<◌, ◌↔◌, All, IfErr, IfOk, List, OnOk, length, true, vec_len};
ghost use Rattle.std.specs.List.{IsDistinct};
ghost use Rattle.std.specs.Ordering.{eq_by_cmp};
ghost use Rattle.pipe_aggs.specs.QueryTrees.{query_tree};
ghost use Rattle.pipe_columns.specs.Frame.{FitsSchema, fields_of};
ghost use Rattle.pipe_columns.specs.Place.{place_cmp};
ghost use Rattle.pipe_columns.specs.Row.{Row};
ghost use Rattle.pipe_inputs.specs.RowTypes.{IsRowOf};
ghost use Rattle.pipe_model.specs.Answer.{groups};
ghost use Rattle.pipe_model.specs.Output.{output_schema};
ghost use Rattle.pipe_model.specs.Rows.{HaveDistinctPlaces};
ghost use Rattle.pipe_asked.specs.Given.{frame_of_keys, HasRows};
ghost use Rattle.pipe_asked.specs.Sources.{ArePlacedParts, IsGiveCause, IsPlacedFrame, KeepsAsked, LeavesOthers};
ghost use Rattle.pipe_asked.specs.Stacking.{all_firsts, all_frames};

use crate::asked::AskedPartitions;
use crate::stacking::{copied, put_below};
use pipe_aggs::CheckedQuery;
use pipe_columns::{DataFrame, Place};
use pipe_global::BatchError;
use pipe_groups::{PlacedGroups, Places};
use pipe_spill::SpillStore;
use std::alloc::{AllocError, Global};

/// Asks the partitions that are left for their groups, which then wait behind those of the others. What
/// was given stays where one refuses.
pub(crate) fn ask_rest<S: SpillStore + Drop>(
    asked: &mut AskedPartitions<'_, S>,
    placed: &mut Vec<PlacedGroups>,
) -> Result<(), BatchError>
    requires waiting { vec_len placed.old ≡ asked.old.given }
    requires frames { All (IsPlacedFrame (query_tree asked.old.query)) placed.old.items }
    ensures all { OnOk result (asked.new.given ≡ length asked.old.partitions) }
    ensures waiting { vec_len placed.new ≡ asked.new.given }
    ensures frames { All (IsPlacedFrame (query_tree asked.old.query)) placed.new.items }
    ensures stands { (rs : List Row) → HasRows rs asked.old
        → ArePlacedParts (query_tree asked.old.query) rs (length asked.old.partitions)
        placed.old.items → HasRows rs asked.new × ArePlacedParts (query_tree asked.old.query) rs
        (length asked.old.partitions) placed.new.items }
    ensures slice { asked.new.slice ≡ asked.old.slice }
    ensures kept { KeepsAsked asked.old asked.new }
    ensures others { OnOk result (LeavesOthers asked.old asked.new) }
    ensures cause { IfErr result (λ e. IsGiveCause asked.old asked.new e) }
{
    'parts: while !asked.are_given() {
        if placed.reserve(1).is_err() {
            return Err(BatchError::Memory);
        }
        match asked.next_placed() {
            Ok(groups) => placed.push_reserved(groups),
            Err(error) => return Err(error),
        }
    }
    Ok(())
}

/// The groups of all parts, those of each below those of the one before. The parts stay, so that
/// nothing is lost where memory is wanting.
fn joined(
    alloc: Global,
    query: &CheckedQuery<'_>,
    placed: &[PlacedGroups],
) -> Result<PlacedGroups, AllocError>
    requires { All (IsPlacedFrame (query_tree query.now)) placed.now }
    ensures frame { IfOk result (λ g. g.frame
        ≡ all_frames (output_schema (query_tree query.now)) placed.now) }
    ensures firsts { IfOk result (λ g. g.firsts ≡ all_firsts placed.now) }
    ensures is { IfOk result (IsPlacedFrame (query_tree query.now)) }
{
    let mut frame = DataFrame::empty_with_schema(alloc, query.output_schema())?;
    let mut firsts = Vec::new(alloc);
    for groups in placed {
        let copy = copied(alloc, &groups.frame)?;
        put_below(&mut frame, copy)?;
        firsts.extend_from_slice(groups.firsts.as_slice())?;
    }
    let places = Places::new(firsts);
    Ok(PlacedGroups {
        frame,
        firsts: places,
    })
}

/// Whether no place stands twice.
fn are_apart(alloc: Global, places: &[Place]) -> Result<bool, AllocError>
    ensures { IfOk result
        (λ apart. (apart ≡ true) ↔ IsDistinct (eq_by_cmp place_cmp) places.now) }
{
    let mut sorted = Vec::from_slice(alloc, places)?;
    sorted.sort_unstable();
    for i in 1..sorted.len() {
        if sorted[i - 1] == sorted[i] {
            return Ok(false);
        }
    }
    Ok(true)
}

/// A frame under a slice.
fn under(frame: DataFrame, slice: Option<(usize, usize)>) -> DataFrame
    ensures { fields_of result.columns ≡ fields_of frame.columns }
{
    match slice {
        None => frame,
        Some((offset, length)) => frame.slice(offset, length),
    }
}

/// The groups of all parts in the order of their first rows, under a slice. Only where a store that
/// doesn't tell gave back what it wasn't given do two groups have one place, and no order: they then
/// come as they stand.
pub(crate) fn frame_by_place(
    alloc: Global,
    query: &CheckedQuery<'_>,
    placed: &[PlacedGroups],
    slice: Option<(usize, usize)>,
) -> Result<DataFrame, AllocError>
    requires { All (IsPlacedFrame (query_tree query.now)) placed.now }
    ensures fields { IfOk result
        (λ f. FitsSchema (output_schema (query_tree query.now)) f) }
    ensures frame { IfOk result (λ f. (rs : List Row) → 0 < length placed.now
        → (query_tree query.now).keeps_order ≡ true
        → HaveDistinctPlaces rs → All (IsRowOf (query_tree query.now)) rs
        → ArePlacedParts (query_tree query.now) rs (length placed.now) placed.now
        → f ≡ frame_of_keys (query_tree query.now) rs slice
        (groups rs (query_tree query.now) (length placed.now))) }
{
    let all = joined(alloc, query, placed)?;
    let apart = are_apart(alloc, all.firsts.as_slice())?;
    if !apart {
        return Ok(under(all.frame, slice));
    }
    let mut left = slice;
    let frame = all.in_order_of_rows(alloc, &mut left)?;
    Ok(frame)
}
