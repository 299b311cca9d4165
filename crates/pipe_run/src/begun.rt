//! How a run was begun.

ghost use Rattle.std.specs.Prelude.{◌≡◌, map};

use pipe_aggs::CheckedQuery;
use pipe_plan::{Limits, SpillAction};
use pipe_spill::SpillStore;
use std::marker::Model;
use std::snapshot::Snapshot;

/// The query, the limits, the actions and the rules of a run, and marks without bytes of its stores as
/// they were when it was begun. Contracts see what the marks are of.
#[derive(Drop)]
pub(crate) struct Begun<'a, S: SpillStore + Drop> {
    pub(crate) query: CheckedQuery<'a>,
    pub(crate) limits: Limits,
    pub(crate) actions: Vec<Vec<SpillAction>>,
    pub(crate) rules: Vec<SpillAction>,
    pub(crate) former: Vec<Snapshot<S>>,
}

impl<'a, S: SpillStore + Drop> Model for Begun<'a, S> {
    ghost use Rattle.pipe_plan.specs.Stores.{store_seen};
    ghost use Rattle.std.specs.Prelude.{map};
    ghost use Rattle.pipe_run.specs.Setting.{Setting};

    ghost Value = { Setting };

    ghost view = { λ b. record {
      query = b.query;
      limits = b.limits;
      actions = map (λ v. v.items) b.actions.items;
      rules = b.rules.items;
      stores = map (λ s. store_seen S.held S.told S.faults S.sure S.path s.value) b.former.items;
    } };
}

impl<'a, S: SpillStore + Drop> Begun<'a, S> {
    /// The actions of each worker.
    pub(crate) fn actions(&self) -> &[Vec<SpillAction>]
        ensures { map (λ v. v.items) result.now ≡ self.now.actions }
    {
        &self.actions
    }

    /// The rule of each worker that has one.
    pub(crate) fn rules(&self) -> &[SpillAction]
        ensures { result.now ≡ self.now.rules }
    {
        &self.rules
    }
}
