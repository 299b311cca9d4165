//! Two tables of one query that are asked together. A call that wants memory is made again.

ghost use Rattle.std.specs.Prelude.{◌≡◌};
ghost use Rattle.pipe_keyed.specs.Tables.{HoldFewTogether};

use crate::asked::{chunk_of_numbers, has_numbers, query_of};
use crate::tables::given::given;
use crate::tables::placed::ordered;
use crate::tables::rows::Rows;
use crate::tables::two_tables::TwoTables;
use pipe_aggs::{CheckedQuery, Query};
use pipe_columns::Place;
use pipe_tables::{AggHashTable, LentEnd};
use std::alloc::{AllocError, Global};
use std::test::Fail;

/// Joins a table with another. It is asked again where memory was wanting.
pub(crate) fn join(table: &mut AggHashTable, other: &mut AggHashTable) -> Result<(), AllocError>
    requires shape { other.old.shape ≡ table.old.shape }
    requires few { HoldFewTogether table.old other.old }
{
    match table.combine(other) {
        Ok(()) => Ok(()),
        Err(AllocError) => table.combine(other),
    }
}

fn tables_over(alloc: Global, query: &CheckedQuery<'_>, rows: &Rows) -> Result<TwoTables, Fail> {
    let chunk = chunk_of_numbers(alloc, rows.types, false, rows.k, rows.v)?;
    TwoTables::new(alloc, query, rows.limit, &chunk)
}

fn tables_of_query(alloc: Global, query: &Query, rows: &Rows) -> Result<TwoTables, Fail> {
    match query.check(alloc) {
        Ok(checked) => tables_over(alloc, &checked, rows),
        Err(_) => Err("Query::check wants memory".into()),
    }
}

/// Two tables that count rows, and rows that are left for them.
pub(crate) fn tables_of(alloc: Global, rows: &Rows) -> Result<TwoTables, Fail> {
    let query = query_of(alloc, rows.types, rows.keys, false)?;
    let tables = tables_of_query(alloc, &query, rows);
    drop(query);
    tables
}

/// Puts some of the rows that are left into the first table, each again where memory was wanting.
fn are_put(tables: &mut TwoTables, count: usize) -> bool {
    for _row in 0..count {
        if tables.put() != LentEnd::Done && tables.put() != LentEnd::Done {
            return false;
        }
    }
    true
}

/// Puts some of the rows that are left into the second table.
fn are_put_other(tables: &mut TwoTables, count: usize) -> bool {
    for _row in 0..count {
        if tables.put_other() != LentEnd::Done && tables.put_other() != LentEnd::Done {
            return false;
        }
    }
    true
}

/// Puts all rows into the tables.
fn are_filled(tables: &mut TwoTables, rows: &Rows) -> bool {
    let is_made = !rows.is_made || tables.reserve().is_ok() || tables.reserve().is_ok();
    is_made
        && are_put(tables, rows.first)
        && are_put_other(tables, rows.k.len().saturating_sub(rows.first))
}

/// Two tables that hold rows.
fn filled(alloc: Global, rows: &Rows) -> Result<TwoTables, Fail> {
    let mut tables = tables_of(alloc, rows)?;
    if are_filled(&mut tables, rows) {
        Ok(tables)
    } else {
        drop(tables);
        Err("TwoTables::put wants memory".into())
    }
}

/// Whether a table gives these keys, and their counts in a column.
fn gives(
    table: &mut AggHashTable,
    column: usize,
    keys: &[i128],
    counts: &[i128],
) -> Result<bool, AllocError> {
    let frame = given(table, &mut None)?;
    Ok(has_numbers(&frame, 0, keys) && has_numbers(&frame, column, counts))
}

/// Whether a table with the rows of another one counts all.
fn counts_all(
    table: &mut AggHashTable,
    other: &mut AggHashTable,
    rows: &Rows,
) -> Result<bool, AllocError>
    requires shape { other.old.shape ≡ table.old.shape }
    requires few { HoldFewTogether table.old other.old }
{
    join(table, other)?;
    gives(table, rows.keys, rows.due.0, rows.due.1)
}

/// Takes the odd keys of another table in, which are those of partition 0 of 2, again where memory
/// was wanting.
fn take_odd(table: &mut AggHashTable, other: &mut AggHashTable) -> Result<(), AllocError>
    requires shape { other.old.shape ≡ table.old.shape }
    requires few { HoldFewTogether table.old other.old }
{
    match table.combine_on_partition(0, 2, other) {
        Ok(()) => Ok(()),
        Err(AllocError) => table.combine_on_partition(0, 2, other),
    }
}

/// Whether a table with the odd keys of another one counts those, and the other one the rest.
fn counts_odd(table: &mut AggHashTable, other: &mut AggHashTable) -> Result<bool, AllocError>
    requires shape { other.old.shape ≡ table.old.shape }
    requires few { HoldFewTogether table.old other.old }
{
    take_odd(table, other)?;
    Ok(gives(table, 1, &[1, 2, 3], &[1, 1, 2])? && gives(other, 1, &[2, 4], &[1, 1])?)
}

/// The first places of a table's groups, asked for again where memory was wanting.
fn firsts_of(table: &mut AggHashTable) -> Result<Vec<Place>, AllocError> {
    match table.finalize_placed() {
        Ok(placed) => Ok(placed.firsts.into_vec()),
        Err(AllocError) => Ok(table.finalize_placed()?.firsts.into_vec()),
    }
}

/// The first rows of 1, 2, 3.
const FIRSTS: [Place; 3] = [
    Place { chunk: 0, row: 5 },
    Place { chunk: 0, row: 4 },
    Place { chunk: 0, row: 3 },
];

/// Whether a table has the first rows of 1, 2, 3.
fn has_firsts(table: &mut AggHashTable) -> Result<bool, AllocError> {
    let firsts = firsts_of(table)?;
    Ok(firsts.as_slice() == FIRSTS.as_slice())
}

/// Whether the second and the third of a table's groups, in an order of first rows, are as is due.
fn is_ordered(alloc: Global, table: &mut AggHashTable) -> Result<bool, Fail> {
    let frame = given(table, &mut None)?;
    let some = ordered(alloc, frame, &mut Some((1, 2)))?;
    Ok(has_numbers(&some, 0, &[1, 3]) && has_numbers(&some, 1, &[1, 2]))
}

/// Whether some groups of a table with the rows of another one are as is due, in an order of first rows.
fn is_ordered_with(
    alloc: Global,
    table: &mut AggHashTable,
    other: &mut AggHashTable,
) -> Result<bool, Fail>
    requires shape { other.old.shape ≡ table.old.shape }
    requires few { HoldFewTogether table.old other.old }
{
    join(table, other)?;
    is_ordered(alloc, table)
}

/// What is asked of two tables, and whether it is as is due.
#[derive(Clone, Copy)]
pub(crate) enum Asked {
    Join,
    Take,
    Firsts,
    Order,
}

fn answers(
    alloc: Global,
    table: &mut AggHashTable,
    other: &mut AggHashTable,
    rows: &Rows,
    asked: Asked,
) -> Result<bool, Fail>
    requires shape { other.old.shape ≡ table.old.shape }
    requires few { HoldFewTogether table.old other.old }
{
    match asked {
        Asked::Join => Ok(counts_all(table, other, rows)?),
        Asked::Take => Ok(counts_odd(table, other)?),
        Asked::Firsts => Ok(has_firsts(table)?),
        Asked::Order => is_ordered_with(alloc, table, other),
    }
}

/// Whether two tables that hold rows answer as is due.
pub(crate) fn answer(alloc: Global, rows: &Rows, asked: Asked) -> Result<bool, Fail> {
    let (mut table, mut other) = filled(alloc, rows)?.into_tables();
    let answer = answers(alloc, &mut table, &mut other, rows, asked);
    drop(table);
    drop(other);
    answer
}
