//! A run of typed sinks that is fed in rounds.

ghost use Rattle.std.specs.Prelude.{◌≡◌, ◌<◌, map, true};
ghost use Rattle.pipe_plan.specs.Journals.{IsWhole, journal_of};
ghost use Rattle.pipe_plan.specs.Stores.{stores_seen};
ghost use Rattle.pipe_run.specs.Answered.{HaveReplayedFrames, HaveWholeFrames};
ghost use Rattle.pipe_run.specs.Setting.{run_over};

use pipe_aggs::CheckedQuery;
use pipe_columns::DataChunk;
use pipe_global::Journal;
use pipe_plan::{Limits, SpillAction};
use pipe_sinks::PausedSink;
use pipe_spill::SpillStore;
use std::marker::Model;
use std::snapshot::Snapshot;

/// A run of typed sinks: each worker's sink keeps all keys, so no row overflows, no event is made and
/// the stores are untouched. Contracts see it as any other run.
#[derive(Drop)]
pub(crate) struct TypedRun<'a, S: SpillStore + Drop> {
    pub(crate) query: CheckedQuery<'a>,
    pub(crate) limits: Limits,
    pub(crate) actions: Vec<Vec<SpillAction>>,
    pub(crate) rules: Vec<SpillAction>,
    pub(crate) stores: Vec<S>,
    pub(crate) sinks: Vec<PausedSink>,
    pub(crate) chunks: Vec<Snapshot<DataChunk>>,
    pub(crate) rows: u64,
    pub(crate) journal: Journal,
}

impl<'a, S: SpillStore + Drop> Model for TypedRun<'a, S> {
    ghost use Rattle.pipe_plan.specs.Stores.{stores_seen};
    ghost use Rattle.std.specs.Prelude.{◌≡◌, [], map};
    ghost use Rattle.pipe_run.specs.Fed.{FedSeen};
    ghost use Rattle.pipe_group_by.specs.Typed.{IsTypedRun, typed_seen};

    ghost Value = { FedSeen };

    ghost view = { λ r. typed_seen (record {
      query = r.query;
      limits = r.limits;
      actions = map (λ v. v.items) r.actions.items;
      rules = r.rules.items;
      stores = stores_seen S.held S.told S.faults S.sure S.path r.stores.items;
    }) (map (λ c. c.value) r.chunks.items) };

    ghost invariant = { λ r. IsTypedRun (record {
      query = r.query;
      limits = r.limits;
      actions = map (λ v. v.items) r.actions.items;
      rules = r.rules.items;
      stores = stores_seen S.held S.told S.faults S.sure S.path r.stores.items;
    }) (map (λ c. c.value) r.chunks.items) r.sinks.items r.rows × (r.journal ≡ []) };
}

impl<'a, S: SpillStore + Drop> TypedRun<'a, S> {
    /// The journal of any partition: no event is in it. It takes no memory.
    pub(crate) fn journal(&self, partition: usize) -> &Journal
        requires { partition < self.now.setting.limits.partitions }
        ensures is { result.now ≡ journal_of self.now.journals partition }
        ensures whole { IsWhole (run_over self.now.setting true self.now.chunks) partition result.now }
    {
        let _ = partition;
        &self.journal
    }

    /// Gives the run up, and hands the stores back, in order. It takes no memory.
    pub(crate) fn into_stores(self) -> Vec<S>
        ensures same { stores_seen S.held S.told S.faults S.sure S.path result.items ≡ self.entry.setting.stores }
        ensures as_before { stores_seen S.held S.told S.faults S.sure S.path result.items
            ≡ self.entry.stores }
        ensures frames { HaveReplayedFrames (run_over self.entry.setting true self.entry.chunks)
            self.entry.journals (stores_seen S.held S.told S.faults S.sure S.path result.items) }
        ensures back { HaveWholeFrames (run_over self.entry.setting true self.entry.chunks)
            (stores_seen S.held S.told S.faults S.sure S.path result.items) }
    {
        let TypedRun { stores, .. } = self;
        stores
    }
}
