//! Runs beside the plain program.

use crate::asked::{chunks_of, count_chunks, query_of};
use crate::cases::{actions_of, limits_of};
use pipe_aggs::{CheckedQuery, Query};
use pipe_columns::{Column, DataFrame, DataType};
use pipe_global::OpenGate;
use pipe_group_by::{GroupByOutput, GroupByRun, PipeError, run_group_by};
use pipe_plan::SinkKind;
use pipe_spill::MemoryStore;
use std::alloc::Global;
use std::sync::Wait;
use std::test::Fail;
use std::thread::Threads;
use test_plain::{are_chunks, plain_answer};

/// How the chunks come to a run: all at once, or so many in each round.
#[derive(Clone, Copy)]
pub(crate) enum Feeds {
    AtOnce,
    Rounds(usize),
}

/// A kind of sink, the type of the key, and how the chunks come.
#[derive(Clone, Copy)]
pub(crate) struct Kind {
    pub(crate) sink: SinkKind,
    pub(crate) dtype: DataType,
    pub(crate) feeds: Feeds,
}

/// How a run ended.
type End = Result<GroupByOutput, PipeError>;

/// So many stores in memory.
fn stores_of(alloc: Global, count: usize) -> Result<Vec<MemoryStore>, Fail> {
    let mut stores = Vec::new(alloc);
    for _store in 0..count {
        stores.push(MemoryStore::new(alloc, Vec::new(alloc)))?;
    }
    Ok(stores)
}

/// Whether two columns are the same.
fn is_same(left: &Column, right: &Column) -> bool {
    left.name() == right.name() && left.dtype() == right.dtype() && left.values() == right.values()
}

/// Whether two frames are the same.
fn are_same(left: &DataFrame, right: &DataFrame) -> bool {
    let (left_columns, right_columns) = (left.columns(), right.columns());
    if left.height() != right.height() || left_columns.len() != right_columns.len() {
        return false;
    }
    for at in 0..left_columns.len().min(right_columns.len()) {
        if !is_same(&left_columns[at], &right_columns[at]) {
            return false;
        }
    }
    true
}

/// What the plain program answers to a checked query.
fn plain_over(
    alloc: Global,
    query: &CheckedQuery<'_>,
    dtype: DataType,
    partitions: usize,
) -> Result<DataFrame, Fail> {
    let chunks = chunks_of(alloc, dtype, 0, count_chunks())?;
    if partitions == 0 || !are_chunks(&chunks, query) {
        return Err("chunks that don't fit".into());
    }
    Ok(plain_answer(alloc, &chunks, query, partitions)?)
}

/// What the plain program answers.
fn plain_of(
    alloc: Global,
    query: &Query,
    dtype: DataType,
    partitions: usize,
) -> Result<DataFrame, Fail> {
    match query.check(alloc) {
        Ok(checked) => plain_over(alloc, &checked, dtype, partitions),
        Err(_) => Err("a query with a fault".into()),
    }
}

/// A run of a row of the table before its first chunk.
fn begun<'a, H: Wait>(
    rt: &H,
    alloc: Global,
    query: &'a Query,
    sink: SinkKind,
    number: usize,
) -> Result<GroupByRun<'a, MemoryStore>, Fail> {
    let limits = limits_of(number, sink);
    let lists = actions_of(alloc, number, limits.workers)?;
    let stores = stores_of(alloc, limits.partitions)?;
    match GroupByRun::begin(rt, alloc, query, &limits, lists, stores) {
        Ok(run) => Ok(run),
        Err(_) => Err("a run was not begun".into()),
    }
}

/// The run with the chunks from one on, at most so many.
fn fed<'a, H: Threads + Wait + Sync>(
    rt: &H,
    alloc: Global,
    run: GroupByRun<'a, MemoryStore>,
    dtype: DataType,
    from: usize,
    most: usize,
) -> Result<GroupByRun<'a, MemoryStore>, Fail> {
    let chunks = chunks_of(alloc, dtype, from, most)?;
    match run.feed(rt, alloc, &OpenGate, chunks) {
        Ok(run) => Ok(run),
        Err(_) => Err("a run was not fed".into()),
    }
}

/// A run that is fed so many chunks a round.
fn run_in_rounds<H: Threads + Wait + Sync>(
    rt: &H,
    alloc: Global,
    query: &Query,
    kind: Kind,
    number: usize,
    most: usize,
) -> Result<End, Fail> {
    let mut run = begun(rt, alloc, query, kind.sink, number)?;
    let mut from: usize = 0;
    for _round in 0..count_chunks() {
        run = fed(rt, alloc, run, kind.dtype, from, most)?;
        from = from.wrapping_add(most);
    }
    let (ended, _stores) = run.finish(rt, alloc, &OpenGate);
    Ok(ended)
}

/// A run over all chunks at once.
fn run_at_once<H: Threads + Wait + Sync>(
    rt: &H,
    alloc: Global,
    query: &Query,
    kind: Kind,
    number: usize,
) -> Result<End, Fail> {
    let limits = limits_of(number, kind.sink);
    let lists = actions_of(alloc, number, limits.workers)?;
    let stores = stores_of(alloc, limits.partitions)?;
    let chunks = chunks_of(alloc, kind.dtype, 0, count_chunks())?;
    let (ended, _stores) = run_group_by(
        rt, alloc, chunks, query, &limits, lists, stores, &OpenGate,
    );
    Ok(ended)
}

/// A run of a row of the table.
fn run_of<H: Threads + Wait + Sync>(
    rt: &H,
    alloc: Global,
    query: &Query,
    kind: Kind,
    number: usize,
) -> Result<End, Fail> {
    match kind.feeds {
        Feeds::Rounds(most) => run_in_rounds(rt, alloc, query, kind, number, most),
        Feeds::AtOnce => run_at_once(rt, alloc, query, kind, number),
    }
}

/// Whether a run was answered by a frame.
fn is_answered_by(ended: &End, frame: &DataFrame) -> bool {
    match ended {
        Ok(output) => are_same(&output.frame, frame),
        Err(_) => false,
    }
}

/// Whether a run of a query answers as the plain program does.
fn agrees_on<H: Threads + Wait + Sync>(
    rt: &H,
    alloc: Global,
    query: &Query,
    kind: Kind,
    number: usize,
) -> Result<bool, Fail> {
    let partitions = limits_of(number, kind.sink).partitions;
    let plain = plain_of(alloc, query, kind.dtype, partitions)?;
    let ended = run_of(rt, alloc, query, kind, number)?;
    Ok(is_answered_by(&ended, &plain))
}

/// Whether a run of a row of the table answers as the plain program does.
pub(crate) fn agrees<H: Threads + Wait + Sync>(
    rt: &H,
    alloc: Global,
    kind: Kind,
    number: usize,
) -> Result<bool, Fail> {
    let query = query_of(alloc, kind.dtype, number)?;
    let agrees = agrees_on(rt, alloc, &query, kind, number);
    drop(query);
    agrees
}
