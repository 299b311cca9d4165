//! Chunks that a run of typed sinks is fed.

ghost use Rattle.std.specs.Prelude.{◌≡◌, ◌<◌, ◌++◌, IfErr, IfOk, OnOk, map, true, vec_len};
ghost use Rattle.pipe_aggs.specs.QueryTrees.{query_tree};
ghost use Rattle.pipe_model.specs.Rows.{AreChunksOf};
ghost use Rattle.pipe_plan.specs.Stores.{stores_seen};
ghost use Rattle.pipe_run.specs.Answered.{HaveWholeFrames};
ghost use Rattle.pipe_run.specs.Feeding.{chunks_reached, IsFeedCause};
ghost use Rattle.pipe_run.specs.Refusals.{CanFeed};
ghost use Rattle.pipe_run.specs.Setting.{run_over};
ghost use Rattle.pipe_group_by.specs.Taken.{HaveTaken};

use crate::positions::at_positions;
use crate::typed_round::typed_round;
use crate::typed_run::TypedRun;
use pipe_aggs::CheckedQuery;
use pipe_columns::DataChunk;
use pipe_run::{PipeError, checked_rows, with_marks, with_room};
use pipe_sinks::PausedSink;
use pipe_spill::SpillStore;
use std::alloc::{AllocError, Global};
use std::snapshot::Snapshot;
use std::thread::Threads;

/// Marks of chunks.
fn marks_of(alloc: Global, chunks: &[DataChunk]) -> Result<Vec<Snapshot<DataChunk>>, AllocError>
    ensures { IfOk result (λ v. map (λ c. c.value) v.items ≡ chunks.now) }
{
    let marks = with_room(Vec::new(alloc), chunks.len())?;
    Ok(with_marks(marks, chunks))
}

/// What sinks are that took chunks, marks of all chunks, and the chunks, which are handed back.
#[derive(Drop)]
struct Taken {
    chunks: Vec<Snapshot<DataChunk>>,
    sinks: Vec<PausedSink>,
    spent: Vec<DataChunk>,
}

/// The sinks of all workers take further chunks, at their positions.
fn take_in<H: Threads + Sync>(
    rt: &H,
    alloc: Global,
    query: &CheckedQuery<'_>,
    partitions: usize,
    before: Vec<Snapshot<DataChunk>>,
    chunks: Vec<DataChunk>,
    sinks: Vec<PausedSink>,
) -> Result<Taken, AllocError>
    requires some { 0 < vec_len sinks }
    requires asked { AreChunksOf (query_tree query.now)
        (map (λ c. c.value) before.items ++ chunks.items) }
    requires ready { HaveTaken query.now partitions (vec_len sinks)
        (map (λ c. c.value) before.items) sinks.items }
    ensures chunks { IfOk result (λ t. map (λ c. c.value) t.chunks.items
        ≡ map (λ c. c.value) before.items ++ chunks.items) }
    ensures sinks { IfOk result (λ t. HaveTaken query.now partitions (vec_len sinks)
        (map (λ c. c.value) before.items ++ chunks.items) t.sinks.items) }
{
    let mut fed = marks_of(alloc, &chunks)?;
    let chunks = at_positions(chunks, before.len());
    let sinks = typed_round(rt, alloc, query, partitions, &before, &chunks, sinks)?;
    let mut all = before;
    all.append(&mut fed)?;
    Ok(Taken {
        chunks: all,
        sinks,
        spent: chunks,
    })
}

impl<'a, S: SpillStore + Drop> TypedRun<'a, S> {
    /// Feeds further chunks behind those fed before, and hands them back; each worker's sink takes those
    /// that are its turns.
    pub(crate) fn feed<H: Threads + Sync>(
        self,
        rt: &H,
        alloc: Global,
        chunks: Vec<DataChunk>,
    ) -> Result<(TypedRun<'a, S>, Vec<DataChunk>), (PipeError, Vec<S>)>
        ensures setting { IfOk result (λ r. r.0.setting ≡ self.entry.setting) }
        ensures chunks { IfOk result (λ r. r.0.chunks ≡ self.entry.chunks ++ chunks.items) }
        ensures fed { OnOk result
            (CanFeed self.entry.setting.query.schema (self.entry.chunks ++ chunks.items)) }
        ensures same { IfOk result (λ r. r.0.stores ≡ self.entry.stores) }
        ensures cause { IfErr result (λ e. IsFeedCause self.entry chunks.items
            (stores_seen S.held S.told S.faults S.sure S.path e.1.items) e.0) }
        ensures untouched { IfErr result (λ e.
            stores_seen S.held S.told S.faults S.sure S.path e.1.items ≡ self.entry.stores) }
        ensures back { IfErr result (λ e. HaveWholeFrames
            (run_over self.entry.setting true (chunks_reached self.entry chunks.items e.0))
            (stores_seen S.held S.told S.faults S.sure S.path e.1.items)) }
    {
        let TypedRun {
            query,
            limits,
            actions,
            rules,
            stores,
            sinks,
            chunks: before,
            rows,
            journal,
        } = self;
        let rows = match checked_rows(&query, &before, rows, &chunks) {
            Ok(rows) => rows,
            Err(error) => return Err((error, stores)),
        };
        let Taken {
            chunks,
            sinks,
            spent,
        } = match take_in(rt, alloc, &query, limits.partitions, before, chunks, sinks) {
            Ok(taken) => taken,
            Err(AllocError) => return Err((PipeError::Memory, stores)),
        };
        let run = TypedRun {
            query,
            limits,
            actions,
            rules,
            stores,
            sinks,
            chunks,
            rows,
            journal,
        };
        Ok((run, spent))
    }
}
