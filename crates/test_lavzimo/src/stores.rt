//! Makers of stores.

use lavzimo_stores::{MadeFolders, SpillMaker};
use pipe_columns::Text;
use pipe_spill::MemoryStore;
use std::alloc::{AllocError, Global};

/// Makes stores in memory, also for a folder.
#[derive(Drop)]
pub(crate) struct MemoryStores {
    alloc: Global,
    made: MadeFolders,
}

impl MemoryStores {
    /// None was made.
    pub(crate) fn new(alloc: Global) -> MemoryStores {
        MemoryStores {
            alloc,
            made: MadeFolders::none(),
        }
    }
}

impl SpillMaker for MemoryStores {
    ghost use Rattle.std.specs.Prelude.{length, refl};

    type Store = MemoryStore;

    ghost made = { λ m. length m.made };

    ghost folders = { λ m. m.made };

    ghost all_told = { λ m. refl };

    fn make(&mut self, dir: Option<&Text>) -> Result<MemoryStore, AllocError> {
        self.made.add(dir);
        Ok(MemoryStore::new(self.alloc, Vec::new(self.alloc)))
    }
}

/// Makes no store.
#[derive(Drop)]
pub(crate) struct Makeless;

impl SpillMaker for Makeless {
    ghost use Rattle.std.specs.Prelude.{[], refl};

    type Store = MemoryStore;

    ghost made = { λ _. 0 };

    ghost folders = { λ _. [] };

    ghost all_told = { λ _. refl };

    fn make(&mut self, _dir: Option<&Text>) -> Result<MemoryStore, AllocError> {
        Err(AllocError)
    }
}
