//! The state of two chunks, and its text: both calls want memory.

ghost use Rattle.std.specs.Prelude.{IfOk};
ghost use Rattle.pipe_aggs.specs.QueryTrees.{query_tree};
ghost use Rattle.pipe_states.specs.Fair.{IsStateOf};

use crate::asked::{sum_and_first, three_rows, two_rows};
use pipe_aggs::{CheckedQuery, Query};
use pipe_columns::{AnyValue, DataChunk, Place};
use pipe_saving::{SaveError, save};
use pipe_states::{StateFile, StateRow, write_state};
use std::alloc::{AllocError, Global};
use std::test::Fail;

/// Whether values are two numbers.
fn are(values: &[AnyValue], numbers: [i128; 2]) -> bool {
    match (values.first(), values.last()) {
        (Some(AnyValue::Int(first)), Some(AnyValue::Int(last))) => {
            values.len() == 2 && [*first, *last] == numbers
        }
        _ => false,
    }
}

/// Whether a row has these numbers as its key, its places, its count and its results.
fn is_row(
    row: &StateRow,
    key: [i128; 2],
    places: [Place; 2],
    rows: u32,
    results: [i128; 2],
) -> bool {
    are(row.key.as_slice(), key)
        && row.first == places[0]
        && row.last == places[1]
        && row.rows == rows
        && are(row.results.as_slice(), results)
}

fn at(chunk: u32, row: u32) -> Place {
    Place { chunk, row }
}

/// Whether a state is that of both chunks, of which the first has the position 7.
fn is_of_both(file: &StateFile) -> bool {
    let rows = file.rows();
    file.first() == 7
        && file.end() == 9
        && rows.len() == 3
        && is_row(&rows[0], [1, 1], [at(7, 0), at(8, 0)], 2, [14, 5])
        && is_row(&rows[1], [1, 2], [at(7, 1), at(8, 1)], 2, [10, 6])
        && is_row(&rows[2], [2, 1], [at(7, 2), at(7, 2)], 1, [7, 7])
}

/// Whether a text is that of the state: it begins with the range and the number of rows, and the
/// second row has its place, its key, its greatest place, its count and its results.
fn is_text(text: &[u8]) -> bool {
    text.len() == 217
        && text[..16] == [0, 0, 0, 7, 0, 0, 0, 9, 0, 0, 0, 0, 0, 0, 0, 3]
        && text[83..99] == [0, 0, 0, 7, 0, 0, 0, 1, 0, 0, 0, 0, 0, 0, 0, 18]
        && text[99..117] == [1, 128, 0, 0, 0, 0, 0, 0, 1, 1, 128, 0, 0, 0, 0, 0, 0, 2]
        && text[117..132] == [1, 0, 0, 0, 8, 1, 0, 0, 0, 1, 1, 0, 0, 0, 2]
        && text[132..150] == [1, 128, 0, 0, 0, 0, 0, 0, 10, 1, 128, 0, 0, 0, 0, 0, 0, 6]
}

/// The state of chunks, or that the call wants memory.
fn saved_of(
    alloc: Global,
    query: &CheckedQuery<'_>,
    chunks: &[DataChunk],
) -> Result<StateFile, Fail>
    ensures { IfOk result (IsStateOf (query_tree query.now)) }
{
    match save(alloc, query, 7, chunks) {
        Ok(file) => Ok(file),
        Err(SaveError::Memory) => Err("save wants memory".into()),
        Err(_) => Err("save refuses".into()),
    }
}

/// Whether the text of a state is the known one.
fn has_text(alloc: Global, query: &CheckedQuery<'_>, file: &StateFile) -> Result<bool, Fail>
    requires { IsStateOf (query_tree query.now) file.now }
{
    match write_state(alloc, query, file) {
        Ok(text) => Ok(is_text(&text)),
        Err(AllocError) => Err("write_state wants memory".into()),
    }
}

/// Whether the state of two chunks and its text are the known ones.
fn is_right(alloc: Global, query: &CheckedQuery<'_>) -> Result<bool, Fail> {
    let chunks = [three_rows(alloc)?, two_rows(alloc)?];
    let file = saved_of(alloc, query, &chunks)?;
    Ok(is_of_both(&file) && has_text(alloc, query, &file)?)
}

/// Whether they are under a query.
fn is_right_under(alloc: Global, query: &Query) -> Result<bool, Fail> {
    match query.check(alloc) {
        Ok(checked) => is_right(alloc, &checked),
        Err(_) => Err("Query::check wants memory".into()),
    }
}

#[test]
fn state_of_two_chunks(rt: HostRuntime) -> Result<(), Fail> {
    let query = sum_and_first(rt.alloc())?;
    assert!(rt; is_right_under(rt.alloc(), &query)?);
    Ok(())
}
