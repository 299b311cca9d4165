//! Chunks that a run is fed.

ghost use Rattle.std.specs.Prelude.{◌≡◌, ◌++◌, IfErr, IfOk, OnOk, true};
ghost use Rattle.pipe_plan.specs.Stores.{stores_seen};
ghost use Rattle.pipe_run.specs.Answered.{HaveWholeFrames};
ghost use Rattle.pipe_run.specs.Failing.{NoneFailed};
ghost use Rattle.pipe_run.specs.Feeding.{chunks_reached, IsBadChunks, IsFeedCause};
ghost use Rattle.pipe_run.specs.Refusals.{CanFeed};
ghost use Rattle.pipe_run.specs.Setting.{run_over};

use crate::group_by_run::{GroupByRun, Kind};
use pipe_columns::DataChunk;
use pipe_global::Gate;
use pipe_run::{PipeError, drop_chunks};
use pipe_spill::SpillStore;
use std::alloc::Global;
use std::sync::Wait;
use std::thread::Threads;

impl<'a, S: SpillStore + Drop + Send> GroupByRun<'a, S> {
    /// Feeds further chunks as `feed` does, and hands them back, so that their memory can be used again.
    pub fn feed_lent<G: Gate + Sync, H: Threads + Wait + Sync>(
        self,
        rt: &H,
        alloc: Global,
        gate: &G,
        chunks: Vec<DataChunk>,
    ) -> Result<(GroupByRun<'a, S>, Vec<DataChunk>), (PipeError, Vec<S>)>
        ensures setting { IfOk result (λ r. r.0.setting ≡ self.entry.setting) }
        ensures chunks { IfOk result (λ r. r.0.chunks ≡ self.entry.chunks ++ chunks.items) }
        ensures fed { OnOk result
            (CanFeed self.entry.setting.query.schema (self.entry.chunks ++ chunks.items)) }
        ensures counted { IfOk result (λ r. NoneFailed self.entry.stores r.0.stores) }
        ensures cause { IfErr result (λ e. IsFeedCause self.entry chunks.items
            (stores_seen S.held S.told S.faults S.sure S.path e.1.items) e.0) }
        ensures untouched { IfErr result (λ e. IsBadChunks e.0 →
            stores_seen S.held S.told S.faults S.sure S.path e.1.items ≡ self.entry.stores) }
        ensures back { IfErr result (λ e. HaveWholeFrames
            (run_over self.entry.setting true (chunks_reached self.entry chunks.items e.0))
            (stores_seen S.held S.told S.faults S.sure S.path e.1.items)) }
    {
        match self.kind {
            Kind::Generic(run) => match run.feed_lent(rt, alloc, gate, chunks) {
                Ok((run, chunks)) => {
                    let kind = Kind::Generic(run);
                    Ok((GroupByRun { kind }, chunks))
                }
                Err(refusal) => Err(refusal),
            },
            Kind::Typed(run) => match run.feed(rt, alloc, chunks) {
                Ok((run, chunks)) => {
                    let kind = Kind::Typed(run);
                    Ok((GroupByRun { kind }, chunks))
                }
                Err(refusal) => Err(refusal),
            },
        }
    }

    /// Feeds further chunks behind those fed before; each worker takes those that are its turns. The
    /// chunks may then be dropped. A refusal ends the run and hands the stores back, in order.
    pub fn feed<G: Gate + Sync, H: Threads + Wait + Sync>(
        self,
        rt: &H,
        alloc: Global,
        gate: &G,
        chunks: Vec<DataChunk>,
    ) -> Result<GroupByRun<'a, S>, (PipeError, Vec<S>)>
        ensures setting { IfOk result (λ r. r.setting ≡ self.entry.setting) }
        ensures chunks { IfOk result (λ r. r.chunks ≡ self.entry.chunks ++ chunks.items) }
        ensures fed { OnOk result
            (CanFeed self.entry.setting.query.schema (self.entry.chunks ++ chunks.items)) }
        ensures counted { IfOk result (λ r. NoneFailed self.entry.stores r.stores) }
        ensures cause { IfErr result (λ e. IsFeedCause self.entry chunks.items
            (stores_seen S.held S.told S.faults S.sure S.path e.1.items) e.0) }
        ensures untouched { IfErr result (λ e. IsBadChunks e.0 →
            stores_seen S.held S.told S.faults S.sure S.path e.1.items ≡ self.entry.stores) }
        ensures back { IfErr result (λ e. HaveWholeFrames
            (run_over self.entry.setting true (chunks_reached self.entry chunks.items e.0))
            (stores_seen S.held S.told S.faults S.sure S.path e.1.items)) }
    {
        match self.kind {
            Kind::Generic(run) => match run.feed(rt, alloc, gate, chunks) {
                Ok(run) => Ok(GroupByRun {
                    kind: Kind::Generic(run),
                }),
                Err(refusal) => Err(refusal),
            },
            Kind::Typed(run) => match run.feed(rt, alloc, chunks) {
                Ok((run, spent)) => {
                    drop_chunks(rt, alloc, run.limits.workers, spent);
                    let kind = Kind::Typed(run);
                    Ok(GroupByRun { kind })
                }
                Err(refusal) => Err(refusal),
            },
        }
    }
}
