//! A run of any kind of sink that is fed in rounds.

ghost use Rattle.std.specs.Prelude.{◌≡◌, ◌<◌, true};
ghost use Rattle.pipe_plan.specs.Journals.{IsWhole, journal_of};
ghost use Rattle.pipe_plan.specs.Stores.{stores_seen};
ghost use Rattle.pipe_run.specs.Answered.{HaveReplayedFrames, HaveWholeFrames};
ghost use Rattle.pipe_run.specs.Setting.{run_over};

use crate::typed_run::TypedRun;
use pipe_global::Journal;
use pipe_run::GenericRun;
use pipe_spill::SpillStore;
use std::marker::Model;

/// A run by the kind of its sink.
#[derive(Drop)]
pub(crate) enum Kind<'a, S: SpillStore + Drop> {
    Generic(GenericRun<'a, S>),
    Typed(TypedRun<'a, S>),
}

/// A run that is fed in rounds. Between its calls no worker works. Contracts see how it was begun, the
/// chunks fed, though of each only a mark without bytes is kept, and the journal and the store of each
/// partition.
#[derive(Drop)]
pub struct GroupByRun<'a, S: SpillStore + Drop> {
    pub(crate) kind: Kind<'a, S>,
}

impl<'a, S: SpillStore + Drop> Model for GroupByRun<'a, S> {
    ghost use Rattle.pipe_run.specs.Fed.{FedSeen};
    ghost use Rattle.pipe_group_by.specs.Kinds.{seen_of};

    ghost Value = { FedSeen };

    ghost view = { λ r. seen_of r.kind };
}

impl<'a, S: SpillStore + Drop + Send> GroupByRun<'a, S> {
    /// The journal of a partition so far. It takes no memory.
    pub fn journal(&self, partition: usize) -> &Journal
        requires { partition < self.now.setting.limits.partitions }
        ensures is { result.now ≡ journal_of self.now.journals partition }
        ensures whole { IsWhole (run_over self.now.setting true self.now.chunks) partition result.now }
    {
        match &self.kind {
            Kind::Generic(run) => run.journal(partition),
            Kind::Typed(run) => run.journal(partition),
        }
    }

    /// Gives the run up, and hands the stores back, in order. It takes no memory.
    pub fn into_stores(self) -> Vec<S>
        ensures frames { HaveReplayedFrames (run_over self.entry.setting true self.entry.chunks)
            self.entry.journals (stores_seen S.held S.told S.faults S.sure S.path result.items) }
        ensures back { HaveWholeFrames (run_over self.entry.setting true self.entry.chunks)
            (stores_seen S.held S.told S.faults S.sure S.path result.items) }
        ensures as_before { stores_seen S.held S.told S.faults S.sure S.path result.items
            ≡ self.entry.stores }
    {
        match self.kind {
            Kind::Generic(run) => run.into_stores(),
            Kind::Typed(run) => run.into_stores(),
        }
    }
}
