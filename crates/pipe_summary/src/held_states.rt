//! The states that a summary holds, for contracts.

ghost use Rattle.std.specs.Prelude.{◌≡◌, ◌++◌, ◌∷◌, []};

use crate::held_state::HeldState;
use pipe_states::StateFile;
use std::marker::Model;
use std::snapshot::Snapshot;

/// A list of states that contracts see. The code holds no byte of them, so one more takes no
/// memory.
#[derive(Drop)]
pub struct HeldStates {
    last: HeldState,
}

impl Model for HeldStates {
    ghost use Rattle.std.specs.Prelude.{List};
    ghost use Rattle.pipe_states.specs.States.{StateSeen};
    ghost use Rattle.pipe_summary.specs.HeldStates.{states_of};

    ghost Value = { List StateSeen };

    ghost view = { λ t. states_of t.last };
}

impl HeldStates {
    /// No state.
    pub(crate) fn none() -> HeldStates
        ensures { result ≡ [] }
    {
        HeldStates {
            last: HeldState::None,
        }
    }

    /// One state more, behind the others.
    pub(crate) fn add(&mut self, state: &StateFile)
        ensures { self.new ≡ self.old ++ state.now ∷ [] }
    {
        let before = Snapshot::of(&self.last);
        self.last = HeldState::Behind(before, Snapshot::of(state));
    }
}
