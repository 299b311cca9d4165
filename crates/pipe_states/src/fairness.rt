//! What each state keeps, item by item.

ghost use Rattle.std.specs.Prelude.{◌≡◌, ◌<◌, ◌≤◌, ◌^◌, ◌↔◌, All, IfOk, map, sum_by, true};
ghost use Rattle.std.specs.List.{IsDistinct};
ghost use Rattle.std.specs.Ordering.{eq_by_cmp, is_gt};
ghost use Rattle.pipe_columns.specs.Groups.{IsAscending};
ghost use Rattle.pipe_columns.specs.Place.{place_cmp};
ghost use Rattle.pipe_model.specs.Answer.{tuple_cmp};
ghost use Rattle.pipe_states.specs.Fair.{IsFair, IsFairRow, IsPlaceIn};

use crate::state_row::StateRow;
use pipe_columns::Place;
use std::alloc::{AllocError, Global};

/// Whether a range doesn't end before it begins.
fn is_range(first: u32, end: u32) -> bool
    ensures { (result ≡ true) ↔ (first ≤ end) }
{
    first <= end
}

/// Whether a place lies in a chunk of a range.
fn is_place_in(first: u32, end: u32, place: Place) -> bool
    ensures { (result ≡ true) ↔ IsPlaceIn first end place }
{
    first <= place.chunk && place.chunk < end
}

/// Whether the least place of a row lies in a chunk of a range.
fn does_begin_in(first: u32, end: u32, row: &StateRow) -> bool
    ensures { (result ≡ true) ↔ IsPlaceIn first end row.now.first }
{
    is_place_in(first, end, row.first)
}

/// Whether its greatest place does.
fn does_end_in(first: u32, end: u32, row: &StateRow) -> bool
    ensures { (result ≡ true) ↔ IsPlaceIn first end row.now.last }
{
    is_place_in(first, end, row.last)
}

/// Whether its least place is behind its greatest.
fn is_turned(row: &StateRow) -> bool
    ensures { result ≡ is_gt (place_cmp row.now.first row.now.last) }
{
    row.first.cmp(&row.last).is_gt()
}

/// Whether it is of a row at least.
fn has_rows(row: &StateRow) -> bool
    ensures { (result ≡ true) ↔ (1 ≤ row.now.rows) }
{
    row.rows >= 1
}

/// Whether the places of a row lie in a range and in order, and it is of a row at least.
fn is_fair_row(first: u32, end: u32, row: &StateRow) -> bool
    ensures { (result ≡ true) ↔ IsFairRow first end row.now }
{
    if !does_begin_in(first, end, row) {
        return false;
    }
    if !does_end_in(first, end, row) {
        return false;
    }
    if is_turned(row) {
        return false;
    }
    has_rows(row)
}

/// Whether each row is fair in a range.
fn are_fair_rows(first: u32, end: u32, rows: &[StateRow]) -> bool
    ensures { (result ≡ true) ↔ All (IsFairRow first end) rows.now }
{
    for row in rows {
        if !is_fair_row(first, end, row) {
            return false;
        }
    }
    true
}

/// Whether the keys of rows ascend.
fn do_keys_ascend(rows: &[StateRow]) -> bool
    ensures { (result ≡ true) ↔ IsAscending tuple_cmp (map (λ r. r.key) rows.now) }
{
    for i in 1..rows.len() {
        let order = rows[i - 1].key.as_slice().cmp(rows[i].key.as_slice());
        if !order.is_lt() {
            return false;
        }
    }
    true
}

/// Whether no place stands twice. The places are moved.
fn are_apart(places: &mut Vec<Place>) -> bool
    ensures { (result ≡ true) ↔ IsDistinct (eq_by_cmp place_cmp) places.old.items }
{
    places.sort_unstable();
    for i in 1..places.len() {
        if places[i - 1] == places[i] {
            return false;
        }
    }
    true
}

/// Whether no two rows have one least place.
fn are_firsts_apart(alloc: Global, rows: &[StateRow]) -> Result<bool, AllocError>
    ensures { IfOk result (λ apart. (apart ≡ true)
        ↔ IsDistinct (eq_by_cmp place_cmp) (map (λ r. r.first) rows.now)) }
{
    let mut places = Vec::with_capacity(alloc, rows.len())?;
    for row in rows {
        places.push(row.first)?;
    }
    Ok(are_apart(&mut places))
}

/// Whether no two rows have one greatest place.
fn are_lasts_apart(alloc: Global, rows: &[StateRow]) -> Result<bool, AllocError>
    ensures { IfOk result (λ apart. (apart ≡ true)
        ↔ IsDistinct (eq_by_cmp place_cmp) (map (λ r. r.last) rows.now)) }
{
    let mut places = Vec::with_capacity(alloc, rows.len())?;
    for row in rows {
        places.push(row.last)?;
    }
    Ok(are_apart(&mut places))
}

/// Whether state rows are of fewer than 2^32 rows.
fn are_few(rows: &[StateRow]) -> bool
    ensures { (result ≡ true) ↔ (sum_by (λ r. r.rows) rows.now < 2 ^ 32) }
{
    let mut sum: u64 = 0;
    for row in rows {
        sum += u64::from(row.rows);
        if sum > u64::from(u32::MAX) {
            return false;
        }
    }
    true
}

/// Whether rows are those of a fair state of a range.
pub(crate) fn is_fair(
    alloc: Global,
    first: u32,
    end: u32,
    rows: &[StateRow],
) -> Result<bool, AllocError>
    ensures { IfOk result (λ fair. (fair ≡ true)
        ↔ IsFair (record { first = first; end = end; rows = rows.now })) }
{
    if !is_range(first, end) {
        return Ok(false);
    }
    if !are_fair_rows(first, end, rows) {
        return Ok(false);
    }
    if !do_keys_ascend(rows) {
        return Ok(false);
    }
    if !are_few(rows) {
        return Ok(false);
    }
    let firsts = are_firsts_apart(alloc, rows)?;
    if !firsts {
        return Ok(false);
    }
    let lasts = are_lasts_apart(alloc, rows)?;
    Ok(lasts)
}
