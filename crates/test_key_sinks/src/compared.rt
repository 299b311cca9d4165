//! Sinks beside the plain program.

ghost use Rattle.std.specs.Prelude.{◌≡◌};
ghost use Rattle.pipe_sinks.specs.Runs.{purpose_of};

use crate::asked::{HEIGHTS, chunk_at, query_of};
use crate::cases::{Case, Way};
use crate::turn_sink::TurnSink;
use pipe_aggs::{CheckedQuery, Query};
use pipe_columns::{Column, DataChunk, DataFrame, DataType};
use pipe_sinks::SoleKey;
use std::alloc::{AllocError, Global};
use std::test::Fail;
use test_plain::{are_chunks, plain_answer};

/// Whether two columns are the same.
fn is_same(left: &Column, right: &Column) -> bool {
    left.name() == right.name() && left.dtype() == right.dtype() && left.values() == right.values()
}

/// Whether two frames are the same.
fn are_same(left: &DataFrame, right: &DataFrame) -> bool {
    let (left_columns, right_columns) = (left.columns(), right.columns());
    if left.height() != right.height() || left_columns.len() != right_columns.len() {
        return false;
    }
    for at in 0..left_columns.len().min(right_columns.len()) {
        if !is_same(&left_columns[at], &right_columns[at]) {
            return false;
        }
    }
    true
}

/// All chunks, which have the index 0.
fn chunks_of(alloc: Global, dtype: DataType) -> Result<Vec<DataChunk>, Fail> {
    let mut chunks = Vec::new(alloc);
    for position in 0..HEIGHTS.len() {
        chunks.push(chunk_at(alloc, dtype, position, 0)?)?;
    }
    Ok(chunks)
}

/// What the plain program answers.
fn plain_of(
    alloc: Global,
    query: &CheckedQuery<'_>,
    dtype: DataType,
    partitions: usize,
) -> Result<DataFrame, Fail> {
    let chunks = chunks_of(alloc, dtype)?;
    if partitions == 0 || !are_chunks(&chunks, query) {
        return Err("chunks that don't fit".into());
    }
    Ok(plain_answer(alloc, &chunks, query, partitions)?)
}

/// Feeds a sink the chunk at a position, under an index, again where memory was wanting.
fn feed_one<S: SoleKey>(
    alloc: Global,
    sink: &mut TurnSink<'_, S>,
    way: Way,
    position: usize,
    index: u32,
) -> Result<bool, Fail>
    ensures { purpose_of sink.new ≡ purpose_of sink.old }
{
    let chunk = chunk_at(alloc, S::key_type(), position, index)?;
    if let Ok(taken) = sink.take(alloc, way, chunk) {
        return Ok(taken);
    }
    let chunk = chunk_at(alloc, S::key_type(), position, index)?;
    Ok(sink.take(alloc, way, chunk)?)
}

/// Feeds a sink the chunks of one turn.
fn feed<S: SoleKey>(
    alloc: Global,
    sink: &mut TurnSink<'_, S>,
    case: &Case,
    turn: u32,
) -> Result<(), Fail>
    ensures { purpose_of sink.new ≡ purpose_of sink.old }
{
    for position in 0..HEIGHTS.len() {
        let index = case.first.wrapping_add(position as u32);
        if index.checked_rem(case.sinks) == Some(turn) {
            let taken = feed_one(alloc, sink, case.way, position, index)?;
            if !taken {
                return Err("a chunk that doesn't come here".into());
            }
        }
    }
    Ok(())
}

/// Combines a sink with a later one, again where memory was wanting.
fn merge<'a, S: SoleKey>(
    sink: &mut TurnSink<'a, S>,
    other: &mut TurnSink<'a, S>,
) -> Result<bool, AllocError>
    requires { purpose_of other.old ≡ purpose_of sink.old }
    ensures { purpose_of sink.new ≡ purpose_of sink.old }
{
    if let Ok(merged) = sink.merge(other) {
        return Ok(merged);
    }
    sink.merge(other)
}

/// What a sink gives that has taken the chunks of a later one over.
fn finish_with<'a, S: SoleKey>(
    sink: &mut TurnSink<'a, S>,
    later: &mut TurnSink<'a, S>,
) -> Result<DataFrame, AllocError>
    requires { purpose_of later.old ≡ purpose_of sink.old }
{
    sink.merge(later)?;
    sink.finish()
}

/// What a sink gives. Where memory was wanting the sink goes on: it takes those of one more over, of
/// which there are none, and is asked again.
fn finish<S: SoleKey>(sink: &mut TurnSink<'_, S>, turn: u32) -> Result<DataFrame, AllocError> {
    if let Ok(frame) = sink.finish() {
        return Ok(frame);
    }
    let mut later = sink.split(turn)?;
    let frame = finish_with(sink, &mut later);
    drop(later);
    frame
}

/// Feeds a sink the chunks of one turn, and combines the sink of all with it.
fn take_turn<'a, S: SoleKey>(
    alloc: Global,
    all: &mut TurnSink<'a, S>,
    next: &mut TurnSink<'a, S>,
    case: &Case,
    turn: u32,
) -> Result<bool, Fail>
    requires { purpose_of next.old ≡ purpose_of all.old }
    ensures { purpose_of all.new ≡ purpose_of all.old }
{
    feed(alloc, next, case, turn)?;
    Ok(merge(all, next)?)
}

/// Lets a sink of its own take the chunks of one turn, and combines the sink of all with it.
fn take_split<S: SoleKey>(
    alloc: Global,
    all: &mut TurnSink<'_, S>,
    case: &Case,
    turn: u32,
) -> Result<bool, Fail> {
    let mut next = all.split(turn)?;
    let taken = take_turn(alloc, all, &mut next, case, turn);
    drop(next);
    taken
}

/// What the sinks of a case give, combined with the first.
fn given_by<S: SoleKey>(
    alloc: Global,
    all: &mut TurnSink<'_, S>,
    case: &Case,
) -> Result<DataFrame, Fail> {
    feed(alloc, all, case, 0)?;
    for turn in 1..case.sinks {
        if !take_split(alloc, all, case, turn)? {
            return Err("sinks that don't follow one another".into());
        }
    }
    Ok(finish(all, case.sinks)?)
}

/// What the sinks of a case give, combined.
fn given_of<S: SoleKey>(
    alloc: Global,
    query: &CheckedQuery<'_>,
    case: &Case,
) -> Result<DataFrame, Fail> {
    let sinks = case.sinks as usize;
    let mut all: TurnSink<'_, S> = TurnSink::new(alloc, query, case.partitions, sinks)?;
    let given = given_by(alloc, &mut all, case);
    drop(all);
    given
}

/// Whether the sinks of a case give what the plain program answers to a query.
fn agrees_on<S: SoleKey>(
    alloc: Global,
    query: &CheckedQuery<'_>,
    case: &Case,
) -> Result<bool, Fail> {
    let plain = plain_of(alloc, query, S::key_type(), case.partitions)?;
    let given = given_of::<S>(alloc, query, case)?;
    Ok(are_same(&given, &plain))
}

fn agrees_on_query<S: SoleKey>(alloc: Global, query: &Query, case: &Case) -> Result<bool, Fail> {
    match query.check(alloc) {
        Ok(checked) => agrees_on::<S>(alloc, &checked, case),
        Err(_) => Err("Query::check wants memory".into()),
    }
}

/// Whether the sinks of a case give what the plain program answers.
pub(crate) fn agrees<S: SoleKey>(alloc: Global, case: &Case) -> Result<bool, Fail> {
    let query = query_of(alloc, S::key_type(), case)?;
    let agrees = agrees_on_query::<S>(alloc, &query, case);
    drop(query);
    agrees
}
