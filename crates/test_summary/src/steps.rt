//! The calls of a summary, each made again where it was refused. Refusals by a store are counted.

ghost use Rattle.std.specs.Prelude.{◌≡◌, IfOk};

use pipe_aggs::CheckedQuery;
use pipe_columns::{DataChunk, DataFrame};
use pipe_spill::{MemoryStore, SpillStore};
use pipe_summary::{AddError, AnswerError, CompactError, OpenError, Summary};
use std::alloc::{AllocError, Global};
use std::test::Fail;

/// An empty store in memory whose call of a number fails.
pub(crate) fn store_of(alloc: Global, failing: u64) -> Result<MemoryStore, AllocError> {
    Ok(MemoryStore::new(alloc, Vec::from_slice(alloc, &[failing])?))
}

/// Counts a refusal, if it is one by a store.
fn count(refusals: &mut u32, refused: bool) {
    if refused {
        *refusals = refusals.saturating_add(1);
    }
}

/// The summary that a store holds.
pub(crate) fn open<'a>(
    alloc: Global,
    query: &'a CheckedQuery<'a>,
    store: MemoryStore,
) -> Result<Summary<'a, MemoryStore>, (OpenError, MemoryStore)>
    ensures { IfOk result (λ s. s.query ≡ query.now) }
{
    if query.query().maintain_order {
        return Err((OpenError::Memory, store));
    }
    Summary::open(alloc, query, store)
}

/// The same. Where it isn't opened, it is opened again.
pub(crate) fn open_again<'a>(
    alloc: Global,
    query: &'a CheckedQuery<'a>,
    store: MemoryStore,
    refusals: &mut u32,
) -> Result<Summary<'a, MemoryStore>, Fail> {
    match open(alloc, query, store) {
        Ok(summary) => Ok(summary),
        Err((error, store)) => {
            count(refusals, error == OpenError::Store);
            match open(alloc, query, store) {
                Ok(summary) => Ok(summary),
                Err(_) => Err("Summary::open wants memory".into()),
            }
        }
    }
}

/// Adds a chunk. Where it isn't added, it is added again.
pub(crate) fn add_again<S: SpillStore + Drop>(
    summary: &mut Summary<'_, S>,
    chunk: DataChunk,
    refusals: &mut u32,
) -> Result<(), Fail> {
    let chunks = [chunk];
    match summary.add(&chunks) {
        Ok(()) => Ok(()),
        Err(error) => {
            count(refusals, error == AddError::Store);
            Ok(summary.add(&chunks)?)
        }
    }
}

/// The answer. Where there is none, it is asked for again.
pub(crate) fn answer_again<S: SpillStore + Drop>(
    summary: &mut Summary<'_, S>,
    refusals: &mut u32,
) -> Result<DataFrame, Fail> {
    match summary.answer() {
        Ok(frame) => Ok(frame),
        Err(error) => {
            count(refusals, error == AnswerError::Store);
            Ok(summary.answer()?)
        }
    }
}

/// Puts a summary as one frame. Where it isn't put, it is put again.
pub(crate) fn compact_again<S: SpillStore + Drop>(
    summary: &mut Summary<'_, S>,
    into: &mut MemoryStore,
    refusals: &mut u32,
) -> Result<(), Fail> {
    if into.held() != 0 {
        return Err("it holds a frame".into());
    }
    match summary.compact(into) {
        Ok(()) => Ok(()),
        Err(error) => {
            count(
                refusals,
                error == CompactError::Store || error == CompactError::Into,
            );
            Ok(summary.compact(into)?)
        }
    }
}
