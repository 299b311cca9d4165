//! Runs that are refused before a worker starts, by the first of several causes.

use crate::asked::{chunk_of, chunk_over, hold, literal_query, sum_query};
use crate::runs::{End, limits_of, run};
use pipe_aggs::{Query, QueryFault};
use pipe_columns::{DataChunk, DataType};
use pipe_global::OpenGate;
use pipe_group_by::PipeError;
use pipe_plan::SinkKind;
use std::alloc::Global;
use std::sync::Wait;
use std::test::Fail;
use std::thread::Threads;

/// Whether a run was refused with an error, and so many stores came back without a frame.
fn is_refused(end: &End, wanted: &PipeError, stores: usize) -> bool {
    let Err(error) = &end.0 else {
        return false;
    };
    error == wanted && end.1.len() == stores && end.1.iter().all(|store| store.frames().is_empty())
}

/// Whether a run of two workers over chunks is refused with an error.
fn refuses<H: Threads + Wait + Sync>(
    rt: &H,
    alloc: Global,
    query: &Query,
    sink: SinkKind,
    partitions: usize,
    chunks: Vec<DataChunk>,
    wanted: &PipeError,
) -> Result<bool, Fail> {
    let limits = limits_of(sink, 2, partitions, 1);
    let end = run(rt, alloc, query, &limits, &[], chunks, &OpenGate)?;
    Ok(is_refused(&end, wanted, partitions))
}

/// Whether limits are refused before a query's fault, and that before a kind of sink.
fn are_in_order<H: Threads + Wait + Sync>(
    rt: &H,
    alloc: Global,
    query: &mut Query,
) -> Result<bool, Fail> {
    let text = SinkKind::Text;
    let fault = PipeError::Query(QueryFault::NegativeSlice);
    query.slice = Some((-1, 2));
    let limits = refuses(
        rt,
        alloc,
        query,
        text,
        0,
        Vec::new(alloc),
        &PipeError::Limits,
    )?;
    let slice = refuses(rt, alloc, query, text, 2, Vec::new(alloc), &fault)?;
    query.slice = None;
    let sink = refuses(rt, alloc, query, text, 2, Vec::new(alloc), &PipeError::Sink)?;
    Ok(limits && slice && sink)
}

#[test]
fn limits_come_before_the_query_and_the_sink(rt: HostRuntime) -> Result<(), Fail> {
    let mut query = sum_query(rt.alloc())?;
    let are = are_in_order(&rt, rt.alloc(), &mut query);
    drop(query);
    hold(are)
}

/// Two chunks that fit, of which the second has no row, and one that doesn't.
fn misfits(alloc: Global) -> Result<Vec<DataChunk>, Fail> {
    let mut chunks = Vec::new(alloc);
    chunks.push(chunk_of(alloc, DataType::Int64, &[(1, 5)])?)?;
    chunks.push(chunk_of(alloc, DataType::Int64, &[])?)?;
    chunks.push(chunk_of(alloc, DataType::Int32, &[(1, 5)])?)?;
    Ok(chunks)
}

/// Whether a kind of sink names the chunk that doesn't fit.
fn names_misfit<H: Threads + Wait + Sync>(
    rt: &H,
    alloc: Global,
    query: &Query,
    sink: SinkKind,
) -> Result<bool, Fail> {
    let chunks = misfits(alloc)?;
    refuses(
        rt,
        alloc,
        query,
        sink,
        1,
        chunks,
        &PipeError::Schema { chunk: 2 },
    )
}

/// Whether each kind of sink names it.
fn name_misfit<H: Threads + Wait + Sync>(
    rt: &H,
    alloc: Global,
    query: &Query,
) -> Result<bool, Fail> {
    Ok(
        names_misfit(rt, alloc, query, SinkKind::Generic)?
            && names_misfit(rt, alloc, query, SinkKind::Primitive)?,
    )
}

#[test]
fn the_first_chunk_that_does_not_fit_is_named(rt: HostRuntime) -> Result<(), Fail> {
    let query = sum_query(rt.alloc())?;
    let named = name_misfit(&rt, rt.alloc(), &query);
    drop(query);
    hold(named)
}

/// Two chunks without a column, which have 2^32 rows.
fn many_rows(alloc: Global) -> Result<Vec<DataChunk>, Fail> {
    let mut chunks = Vec::new(alloc);
    for height in [4_294_967_295, 1] {
        chunks.push(chunk_over(height, Vec::new(alloc))?)?;
    }
    Ok(chunks)
}

/// Whether so many rows are too large.
fn are_too_large<H: Threads + Wait + Sync>(
    rt: &H,
    alloc: Global,
    query: &Query,
) -> Result<bool, Fail> {
    let chunks = many_rows(alloc)?;
    refuses(
        rt,
        alloc,
        query,
        SinkKind::Generic,
        1,
        chunks,
        &PipeError::TooLarge,
    )
}

#[test]
fn more_rows_than_there_may_be_are_too_large(rt: HostRuntime) -> Result<(), Fail> {
    let query = literal_query(rt.alloc())?;
    let are = are_too_large(&rt, rt.alloc(), &query);
    drop(query);
    hold(are)
}
