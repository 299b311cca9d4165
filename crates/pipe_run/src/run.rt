//! A run that is fed in rounds.

ghost use Rattle.std.specs.Prelude.{◌≡◌, ◌+◌, ◌<◌, ◌≤◌, ◌++◌, ℕ, IfErr, IfOk, OnOk, length, map, true, vec_capacity, vec_len};
ghost use Rattle.pipe_plan.specs.Journals.{IsWhole, journal_of};
ghost use Rattle.pipe_plan.specs.Stores.{stores_seen};
ghost use Rattle.pipe_run.specs.Answered.{HaveReplayedFrames, HaveWholeFrames};
ghost use Rattle.pipe_run.specs.Fed.{IsFedRun};
ghost use Rattle.pipe_run.specs.Failing.{NoneFailed};
ghost use Rattle.pipe_run.specs.Feeding.{chunks_reached, IsBadChunks, IsFeedCause};
ghost use Rattle.pipe_run.specs.Refusals.{CanFeed};
ghost use Rattle.pipe_run.specs.Setting.{run_over};

use crate::begun::Begun;
use crate::chunk_check::checked_rows;
use crate::error::PipeError;
use crate::gone::drop_chunks;
use crate::round::Ended;
use crate::round_of::round;
use crate::stores::stores_of;
use pipe_columns::DataChunk;
use pipe_global::{ClosedPartition, Gate, Journal};
use pipe_spill::SpillStore;
use pipe_workers::PausedWorker;
use std::alloc::{AllocError, Global};
use std::marker::Model;
use std::snapshot::Snapshot;
use std::sync::Wait;
use std::thread::Threads;

/// A run of the generic sink that is fed in rounds. Between its calls the partitions are out of their
/// locks and the workers rest. Contracts see how it was begun, the chunks fed, though of each only a
/// mark without bytes is kept, and the journal and the store of each partition.
#[derive(Drop)]
pub struct GenericRun<'a, S: SpillStore + Drop> {
    pub(crate) begun: Begun<'a, S>,
    pub(crate) closed: Vec<ClosedPartition<S>>,
    pub(crate) rested: Vec<PausedWorker>,
    pub(crate) chunks: Vec<Snapshot<DataChunk>>,
    pub(crate) rows: u64,
    pub(crate) room: Vec<S>,
}

impl<'a, S: SpillStore + Drop> Model for GenericRun<'a, S> {
    ghost use Rattle.std.specs.Prelude.{◌≡◌, ◌≤◌, map, vec_capacity, vec_len};
    ghost use Rattle.pipe_run.specs.Fed.{FedSeen, IsFedRun};

    ghost Value = { FedSeen };

    ghost view = { λ r. record {
      setting = r.begun;
      chunks = map (λ c. c.value) r.chunks.items;
      journals = map (λ c. c.journal) r.closed.items;
      stores = map (λ c. c.store) r.closed.items;
    } };

    ghost invariant = { λ r. IsFedRun r.begun (map (λ c. c.value) r.chunks.items)
        r.closed.items r.rested.items r.rows
        × (vec_len r.room ≡ 0) × (vec_len r.closed ≤ vec_capacity r.room) };
}

/// What a feed leaves, and how many rows the run has then.
#[derive(Drop)]
struct Fed<S: SpillStore + Drop> {
    closed: Vec<ClosedPartition<S>>,
    rested: Vec<PausedWorker>,
    rows: u64,
}

/// Feeds further chunks to a run that was begun so and took those of the marks, and says how many rows
/// there are then. A refusal hands the partitions back.
fn fed_round<S: SpillStore + Drop + Send, G: Gate + Sync, H: Threads + Wait + Sync>(
    rt: &H,
    alloc: Global,
    gate: &G,
    begun: &Begun<'_, S>,
    taken: &[Snapshot<DataChunk>],
    rows: u64,
    chunks: &[DataChunk],
    closed: Vec<ClosedPartition<S>>,
    rested: Vec<PausedWorker>,
) -> Result<Fed<S>, (PipeError, Vec<ClosedPartition<S>>)>
    requires { IsFedRun begun.now (map (λ c. c.value) taken.now) closed.items rested.items rows }
    ensures run { IfOk result (λ r. IsFedRun begun.now (map (λ c. c.value) taken.now ++ chunks.now)
        r.closed.items r.rested.items r.rows) }
    ensures counted { IfOk result (λ r. NoneFailed (map (λ c. c.store) closed.items)
        (map (λ c. c.store) r.closed.items)) }
    ensures cause { IfErr result (λ e. IsFeedCause (record {
      setting = begun.now;
      chunks = map (λ c. c.value) taken.now;
      journals = map (λ c. c.journal) closed.items;
      stores = map (λ c. c.store) closed.items;
    }) chunks.now (map (λ c. c.store) e.1.items) e.0) }
    ensures untouched { IfErr result (λ e. IsBadChunks e.0
        → map (λ c. c.store) e.1.items ≡ map (λ c. c.store) closed.items) }
    ensures back { IfErr result (λ e. HaveWholeFrames
        (run_over begun.now true (chunks_reached (record {
          setting = begun.now;
          chunks = map (λ c. c.value) taken.now;
          journals = map (λ c. c.journal) closed.items;
          stores = map (λ c. c.store) closed.items;
        }) chunks.now e.0)) (map (λ c. c.store) e.1.items)) }
    ensures count { IfErr result (λ e. vec_len e.1 ≡ vec_len closed) }
{
    let all = match checked_rows(&begun.query, taken, rows, chunks) {
        Ok(all) => all,
        Err(error) => return Err((error, closed)),
    };
    let Ended { closed, rested } = match round(
        rt, alloc, gate, begun, true, taken, chunks, closed, rested,
    ) {
        Ok(ended) => ended,
        Err((stop, closed)) => return Err((stop.error(), closed)),
    };
    Ok(Fed {
        closed,
        rested,
        rows: all,
    })
}

impl<'a, S: SpillStore + Drop + Send> GenericRun<'a, S> {
    /// Feeds further chunks as `feed` does, and hands them back, so that their memory can be used again.
    pub fn feed_lent<G: Gate + Sync, H: Threads + Wait + Sync>(
        self,
        rt: &H,
        alloc: Global,
        gate: &G,
        chunks: Vec<DataChunk>,
    ) -> Result<(GenericRun<'a, S>, Vec<DataChunk>), (PipeError, Vec<S>)>
        ensures setting { IfOk result (λ r. r.0.setting ≡ self.entry.setting) }
        ensures chunks { IfOk result (λ r. r.0.chunks ≡ self.entry.chunks ++ chunks.items) }
        ensures fed { OnOk result
            (CanFeed self.entry.setting.query.schema (self.entry.chunks ++ chunks.items)) }
        ensures counted { IfOk result (λ r. NoneFailed self.entry.stores r.0.stores) }
        ensures cause { IfErr result (λ e. IsFeedCause self.entry chunks.items
            (stores_seen S.held S.told S.faults S.sure S.path e.1.items) e.0) }
        ensures untouched { IfErr result (λ e. IsBadChunks e.0 →
            stores_seen S.held S.told S.faults S.sure S.path e.1.items ≡ self.entry.stores) }
        ensures back { IfErr result (λ e. HaveWholeFrames
            (run_over self.entry.setting true (chunks_reached self.entry chunks.items e.0))
            (stores_seen S.held S.told S.faults S.sure S.path e.1.items)) }
    {
        let GenericRun {
            begun,
            closed,
            rested,
            chunks: taken,
            rows,
            room,
        } = self;
        let marks = match with_room(taken, chunks.len()) {
            Ok(marks) => marks,
            Err(AllocError) => return Err((PipeError::Memory, stores_of(closed, room))),
        };
        let Fed {
            closed,
            rested,
            rows,
        } = match fed_round(
            rt, alloc, gate, &begun, &marks, rows, &chunks, closed, rested,
        ) {
            Ok(fed) => fed,
            Err((error, closed)) => return Err((error, stores_of(closed, room))),
        };
        let marks = with_marks(marks, &chunks);
        let run = GenericRun {
            begun,
            closed,
            rested,
            chunks: marks,
            rows,
            room,
        };
        Ok((run, chunks))
    }

    /// Feeds further chunks behind those fed before; each worker takes those that are its turns. The
    /// chunks may then be dropped. A refusal ends the run and hands the stores back, in order.
    pub fn feed<G: Gate + Sync, H: Threads + Wait + Sync>(
        self,
        rt: &H,
        alloc: Global,
        gate: &G,
        chunks: Vec<DataChunk>,
    ) -> Result<GenericRun<'a, S>, (PipeError, Vec<S>)>
        ensures setting { IfOk result (λ r. r.setting ≡ self.entry.setting) }
        ensures chunks { IfOk result (λ r. r.chunks ≡ self.entry.chunks ++ chunks.items) }
        ensures fed { OnOk result
            (CanFeed self.entry.setting.query.schema (self.entry.chunks ++ chunks.items)) }
        ensures counted { IfOk result (λ r. NoneFailed self.entry.stores r.stores) }
        ensures cause { IfErr result (λ e. IsFeedCause self.entry chunks.items
            (stores_seen S.held S.told S.faults S.sure S.path e.1.items) e.0) }
        ensures untouched { IfErr result (λ e. IsBadChunks e.0 →
            stores_seen S.held S.told S.faults S.sure S.path e.1.items ≡ self.entry.stores) }
        ensures back { IfErr result (λ e. HaveWholeFrames
            (run_over self.entry.setting true (chunks_reached self.entry chunks.items e.0))
            (stores_seen S.held S.told S.faults S.sure S.path e.1.items)) }
    {
        match self.feed_lent(rt, alloc, gate, chunks) {
            Ok((run, chunks)) => {
                drop_chunks(rt, alloc, run.begun.limits.workers, chunks);
                Ok(run)
            }
            Err(refusal) => Err(refusal),
        }
    }

    /// The journal of a partition so far. It takes no memory.
    pub fn journal(&self, partition: usize) -> &Journal
        requires { partition < self.now.setting.limits.partitions }
        ensures is { result.now ≡ journal_of self.now.journals partition }
        ensures whole { IsWhole (run_over self.now.setting true self.now.chunks) partition result.now }
    {
        self.closed[partition].journal()
    }

    /// Gives the run up, and hands the stores back, in order. It takes no memory.
    pub fn into_stores(self) -> Vec<S>
        ensures frames { HaveReplayedFrames (run_over self.entry.setting true self.entry.chunks)
            self.entry.journals (stores_seen S.held S.told S.faults S.sure S.path result.items) }
        ensures back { HaveWholeFrames (run_over self.entry.setting true self.entry.chunks)
            (stores_seen S.held S.told S.faults S.sure S.path result.items) }
        ensures as_before { stores_seen S.held S.told S.faults S.sure S.path result.items
            ≡ self.entry.stores }
    {
        let GenericRun {
            begun,
            closed,
            rested,
            chunks,
            rows: _,
            room,
        } = self;
        drop(begun);
        drop(rested);
        drop(chunks);
        stores_of(closed, room)
    }
}

/// Marks, with room for so many more.
pub fn with_room(
    mut marks: Vec<Snapshot<DataChunk>>,
    more: usize,
) -> Result<Vec<Snapshot<DataChunk>>, AllocError>
    ensures same { IfOk result (λ v. v.items ≡ marks.items) }
    ensures room { IfOk result (λ v. vec_len marks + more ≤ vec_capacity v) }
{
    marks.reserve(more)?;
    Ok(marks)
}

/// Marks of more chunks, for which there is room.
pub fn with_marks(
    mut marks: Vec<Snapshot<DataChunk>>,
    chunks: &[DataChunk],
) -> Vec<Snapshot<DataChunk>>
    requires { vec_len marks + length chunks.now ≤ vec_capacity marks }
    ensures { map (λ c. c.value) result.items
        ≡ map (λ c. c.value) marks.items ++ chunks.now }
{
    for chunk in chunks {
        marks.push_reserved(Snapshot::of(chunk));
    }
    marks
}
