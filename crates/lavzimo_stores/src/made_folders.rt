//! The folders of stores that were made.

ghost use Rattle.std.specs.Prelude.{◌≡◌, ◌++◌, ◌∷◌, [], option_map};

use crate::made_in::MadeIn;
use pipe_columns::Text;
use std::marker::Model;
use std::snapshot::Snapshot;

/// The folders of stores that were made, which contracts see; none of a store in memory. The code
/// holds no byte of them, so one more takes no memory.
#[derive(Drop)]
pub struct MadeFolders {
    last: MadeIn,
}

impl Model for MadeFolders {
    ghost use Rattle.std.specs.Prelude.{ℕ, List, Option};
    ghost use Rattle.lavzimo_stores.specs.MadeIn.{folders_of};

    ghost Value = { List (Option (List ℕ)) };

    ghost view = { λ m. folders_of m.last };
}

impl MadeFolders {
    /// No store was made.
    pub fn none() -> MadeFolders
        ensures { result ≡ [] }
    {
        MadeFolders {
            last: MadeIn::Nothing,
        }
    }

    /// One store more, behind the others.
    pub fn add(&mut self, dir: Option<&Text>)
        ensures { self.new ≡ self.old ++ option_map (λ d. d.now) dir.entry ∷ [] }
    {
        let before = Snapshot::of(&self.last);
        self.last = match dir {
            None => MadeIn::Memory(before),
            Some(dir) => MadeIn::Folder(before, Snapshot::of(dir)),
        };
    }
}
