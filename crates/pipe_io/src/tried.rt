//! The names of files that were to be begun.

ghost use Rattle.std.specs.Prelude.{◌≡◌, ◌++◌, ◌∷◌, []};

use crate::tried_name::TriedName;
use pipe_columns::Text;
use std::marker::Model;
use std::snapshot::Snapshot;

/// A list of names that contracts see. The code holds no byte of them, so one more takes no memory.
#[derive(Drop)]
pub struct TriedNames {
    last: TriedName,
}

impl Model for TriedNames {
    ghost use Rattle.std.specs.Prelude.{ℕ, List};
    ghost use Rattle.pipe_io.specs.TriedNames.{names_of};

    ghost Value = { List (List ℕ) };

    ghost view = { λ t. names_of t.last };
}

impl TriedNames {
    /// No name.
    pub fn none() -> TriedNames
        ensures { result ≡ [] }
    {
        TriedNames {
            last: TriedName::None,
        }
    }

    /// One name more, behind the others.
    pub fn add(&mut self, name: &Text)
        ensures { self.new ≡ self.old ++ name.now ∷ [] }
    {
        let before = Snapshot::of(&self.last);
        self.last = TriedName::Behind(before, Snapshot::of(name));
    }
}
