//! The chunks of a round.

ghost use Rattle.std.specs.Prelude.{◌≡◌, map, slice_index_or};
ghost use Rattle.pipe_plan.specs.Plan.{turn_action};
ghost use Rattle.pipe_plan.specs.declared.event.SpillAction.TheVariants as action;

use pipe_columns::DataChunk;
use pipe_plan::SpillAction;
use std::marker::Model;

/// The last chunks of a run, from a position on, with the actions and the rules of all workers and
/// whether more chunks may follow.
#[derive(Drop)]
pub struct Round<'a> {
    first: usize,
    chunks: &'a [DataChunk],
    actions: &'a [Vec<SpillAction>],
    rules: &'a [SpillAction],
    is_open: bool,
}

impl<'a> Model for Round<'a> {
    ghost use Rattle.std.specs.Prelude.{map};
    ghost use Rattle.pipe_workers.specs.Rounds.{RoundSeen};

    ghost Value = { RoundSeen };

    ghost view = { λ r. record {
      first = r.first;
      chunks = r.chunks.now;
      actions = map (λ v. v.items) r.actions.now;
      rules = r.rules.now;
      is_open = r.is_open;
    } };
}

impl<'a> Round<'a> {
    /// These chunks, the first of which stands at a position of the run.
    pub fn new(
        first: usize,
        chunks: &'a [DataChunk],
        actions: &'a [Vec<SpillAction>],
        rules: &'a [SpillAction],
        is_open: bool,
    ) -> Round<'a>
        ensures { result ≡ record {
          first = first;
          chunks = chunks.now;
          actions = map (λ v. v.items) actions.now;
          rules = rules.now;
          is_open = is_open;
        } }
    {
        Round {
            first,
            chunks,
            actions,
            rules,
            is_open,
        }
    }

    /// The position of the first chunk.
    pub(crate) fn first(&self) -> usize
        ensures { result ≡ self.now.first }
    {
        self.first
    }

    /// The chunks.
    pub(crate) fn chunks(&self) -> &'a [DataChunk]
        ensures { result.now ≡ self.now.chunks }
    {
        self.chunks
    }

    /// What follows a worker's turn: past the end of its list what its rule says, if it has one.
    pub(crate) fn action(&self, worker: usize, turn: usize) -> SpillAction
        ensures { result ≡ turn_action self.now.actions self.now.rules worker turn }
    {
        match self.actions.get(worker) {
            Some(actions) => match actions.get(turn) {
                Some(action) => *action,
                None => self.rule(worker),
            },
            None => self.rule(worker),
        }
    }

    /// What follows a worker's turns past its list: nothing where it has no rule.
    fn rule(&self, worker: usize) -> SpillAction
        ensures { result ≡ slice_index_or self.now.rules worker action.None }
    {
        match self.rules.get(worker) {
            Some(rule) => *rule,
            None => SpillAction::None,
        }
    }

    /// Whether more chunks may follow.
    pub(crate) fn is_open(&self) -> bool
        ensures { result ≡ self.now.is_open }
    {
        self.is_open
    }
}
