//! Rows in the order of what a column shows.

ghost use Rattle.std.specs.Prelude.{◌≡◌, false, IfOk, map, OnOk};
ghost use Rattle.pipe_columns.specs.AnyValue.{value_cmp};
ghost use Rattle.pipe_columns.specs.Frame.{row_at};
ghost use Rattle.lavzimo_rows.specs.Columns.{is_mean, shown_value};
ghost use Rattle.lavzimo_rows.specs.Ranks.{AreRanked, IsRankOf, rank_cmp};
ghost use Rattle.lavzimo_rows.specs.Shown.{turned};
ghost use Rattle.lavzimo_rows.specs.StableOrder.{in_order};

use crate::cell::{Cell, cell_at};
use crate::columns::Shows;
use crate::mean::Millionths;
use pipe_columns::{AnyValue, Column};
use std::alloc::{AllocError, Global};
use std::cmp::Ordering;

/// What a row is put in order by: what a column shows of it, kept beside its number.
#[derive(Clone, Copy, Debug, PartialEq, Eq, PartialOrd, Ord)]
pub(crate) enum Rank<'a> {
    Nothing,
    Truth(bool),
    Number(Millionths),
    Text(&'a [u8]),
}

/// A row that is put in order.
#[derive(Clone, Copy, Debug)]
pub(crate) struct RankedRow<'a> {
    pub(crate) rank: Rank<'a>,
    pub(crate) row: usize,
}

/// The rank of a value.
#[inline(always)]
fn rank_of_value(value: &AnyValue) -> Rank<'_>
    ensures { IsRankOf false value.now result }
{
    match value {
        AnyValue::Null => Rank::Nothing,
        AnyValue::Boolean(truth) => Rank::Truth(*truth),
        AnyValue::Int(number) => Rank::Number(Millionths {
            whole: *number,
            rest: 0,
        }),
        AnyValue::Text(text) => Rank::Text(text.as_bytes()),
    }
}

/// The rank of what a column shows of a row.
#[inline(always)]
fn rank_at(columns: &[Column], shows: Shows, row: usize) -> Rank<'_>
    ensures { IsRankOf (is_mean shows) (shown_value shows (row_at columns.now row)) result }
{
    match cell_at(columns, shows, row) {
        Cell::Nothing => Rank::Nothing,
        Cell::Value(value) => rank_of_value(value),
        Cell::Mean(number) => Rank::Number(number),
    }
}

/// Rows with their ranks.
fn rank_rows<'a>(
    alloc: Global,
    columns: &'a [Column],
    shows: Shows,
    rows: &[usize],
) -> Result<Vec<RankedRow<'a>>, AllocError>
    ensures { IfOk result (λ v. AreRanked (is_mean shows)
        (λ i. shown_value shows (row_at columns.now i)) rows.now v.items) }
{
    let mut ranked = Vec::with_capacity(alloc, rows.len())?;
    for &row in rows {
        let rank = rank_at(columns, shows, row);
        ranked.push(RankedRow { rank, row })?;
    }
    Ok(ranked)
}

/// Compares ranks, or the other way round.
#[inline(always)]
fn compare_ranks(a: &Rank<'_>, b: &Rank<'_>, descending: bool) -> Ordering
    ensures { result ≡ turned descending (rank_cmp a.now b.now) }
{
    let order = a.cmp(b);
    if descending { order.reverse() } else { order }
}

/// Sorts rows by their ranks; those of one rank stay as they stood.
fn sort_by_rank(ranked: &mut Vec<RankedRow<'_>>, descending: bool) -> Result<(), AllocError>
    ensures { OnOk result (ranked.new.items
        ≡ in_order (λ a b. turned descending (rank_cmp a.rank b.rank)) ranked.old.items) }
{
    ranked.sort_by(|a, b| compare_ranks(&a.rank, &b.rank, descending))
}

/// The numbers of rows that are put in order.
fn numbers(alloc: Global, ranked: &[RankedRow<'_>]) -> Result<Vec<usize>, AllocError>
    ensures { IfOk result (λ v. v.items ≡ map (λ r. r.row) ranked.now) }
{
    ranked.iter().map(|row| row.row).collect(alloc)
}

/// Rows in the order of what a column shows of them, upwards or downwards; those of which it shows
/// the same stay as they stood.
pub(crate) fn rows_by_column(
    alloc: Global,
    columns: &[Column],
    shows: Shows,
    descending: bool,
    rows: &[usize],
) -> Result<Vec<usize>, AllocError>
    ensures { IfOk result (λ v. v.items ≡ in_order (λ a b. turned descending
        (value_cmp (shown_value shows (row_at columns.now a))
        (shown_value shows (row_at columns.now b)))) rows.now) }
{
    let mut ranked = rank_rows(alloc, columns, shows, rows)?;
    sort_by_rank(&mut ranked, descending)?;
    let order = numbers(alloc, &ranked)?;
    Ok(order)
}
