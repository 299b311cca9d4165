//! Runs that end with a text.

ghost use Rattle.std.specs.Prelude.{◌≡◌, IfOk};
ghost use Rattle.pipe_aggs.specs.QueryTrees.{query_tree};
ghost use Rattle.pipe_model.specs.Output.{output_schema};

use crate::asked::{Pair, chunks_of};
use crate::runs::limits_of;
use pipe_aggs::Query;
use pipe_columns::Schema;
use pipe_global::OpenGate;
use pipe_group_by::{GroupByRun, PipeError, TextOutput};
use pipe_plan::{SinkKind, SpillAction};
use pipe_spill::MemoryStore;
use pipe_writers::{CsvLines, copy_schema};
use std::alloc::Global;
use std::sync::Wait;
use std::test::Fail;
use std::thread::Threads;

/// The rows of each of two chunks. The keys lie in two partitions by turns.
const ROWS: [Pair; 4] = [(1, 10), (2, 20), (3, 30), (4, 40)];

/// What a run of two workers and two partitions gives of them, partition by partition.
const LINES: &str = "1,20\n3,60\n2,40\n4,80\n";

/// The columns that a query gives.
fn output_of(alloc: Global, query: &Query) -> Result<Schema, Fail>
    ensures { IfOk result (λ s. s ≡ output_schema (query_tree query.now)) }
{
    match query.check(alloc) {
        Ok(checked) => Ok(copy_schema(alloc, checked.output_schema())?),
        Err(_) => Err("Query::check wants memory".into()),
    }
}

/// No action for so many workers.
fn no_actions(alloc: Global, workers: usize) -> Result<Vec<Vec<SpillAction>>, Fail> {
    let mut lists = Vec::new(alloc);
    for _worker in 0..workers {
        lists.push(Vec::new(alloc))?;
    }
    Ok(lists)
}

/// Two stores in memory.
fn two_stores(alloc: Global) -> Result<Vec<MemoryStore>, Fail> {
    let mut stores = Vec::new(alloc);
    for _store in 0..2 {
        stores.push(MemoryStore::new(alloc, Vec::new(alloc)))?;
    }
    Ok(stores)
}

/// A run of two partitions before its first chunk.
fn begun<'a, H: Wait>(
    rt: &H,
    alloc: Global,
    query: &'a Query,
    sink: SinkKind,
    workers: usize,
) -> Result<GroupByRun<'a, MemoryStore>, Fail>
    ensures { IfOk result (λ r. r.setting.query ≡ query.now) }
{
    let limits = limits_of(sink, workers, 2);
    let actions = no_actions(alloc, workers)?;
    let stores = two_stores(alloc)?;
    match GroupByRun::begin(rt, alloc, query, &limits, actions, stores) {
        Ok(run) => Ok(run),
        Err(_) => Err("GroupByRun::begin wants memory".into()),
    }
}

/// The run over the chunks, which it has taken.
fn fed<'a, H: Threads + Wait + Sync>(
    rt: &H,
    alloc: Global,
    run: GroupByRun<'a, MemoryStore>,
) -> Result<GroupByRun<'a, MemoryStore>, Fail>
    ensures { IfOk result (λ r. r.setting ≡ run.entry.setting) }
{
    let chunks = chunks_of(alloc, &[ROWS.as_slice(); 2])?;
    match run.feed(rt, alloc, &OpenGate, chunks) {
        Ok(run) => Ok(run),
        Err(_) => Err("GroupByRun::feed wants memory".into()),
    }
}

/// What the run gives as lines of CSV, and how many stores come back.
pub(crate) fn given<H: Threads + Wait + Sync>(
    rt: &H,
    alloc: Global,
    query: &Query,
    sink: SinkKind,
    workers: usize,
) -> Result<(Result<TextOutput, PipeError>, usize), Fail> {
    let lines = CsvLines::new(output_of(alloc, query)?, false);
    let run = begun(rt, alloc, query, sink, workers)?;
    let run = fed(rt, alloc, run)?;
    let (output, stores) = run.finish_text(rt, alloc, &OpenGate, &lines);
    Ok((output, stores.len()))
}

/// Whether texts, one behind another, are a text.
fn are_text(texts: &[Vec<u8>], text: &[u8]) -> bool {
    let mut rest = text;
    for piece in texts {
        match rest.strip_prefix(piece.as_slice()) {
            Some(behind) => rest = behind,
            None => return false,
        }
    }
    rest.is_empty()
}

/// Whether a run gave the lines of four groups, and a journal for each partition.
pub(crate) fn is_right(output: &TextOutput) -> bool {
    output.text.height == 4
        && are_text(output.text.texts.as_slice(), LINES.as_bytes())
        && output.journals.journals().len() == 2
}
