//! Who makes the stores of the program.

ghost use Rattle.std.specs.Prelude.{◌≡◌, ◌<◌, ◌++◌, ◌∷◌, [], IfOk, IsTrue, None, OnErr, Some, map, option_map, vec_capacity, vec_len};
ghost use Rattle.tool_stores.specs.ProgramStore.{program_faults, program_held, is_program_sure, path_of, program_told};
ghost use Rattle.tool_stores.specs.StorePath.{store_path};

use crate::maker::StoreMaker;
use crate::program_store::ProgramStore;
use pipe_columns::Text;
use pipe_spill::{FileStore, MemoryStore};
use std::alloc::{AllocError, Global};
use std::fs::Files;
use std::hash::RandomState;
use std::marker::Model;
use std::snapshot::Snapshot;

/// Makes the stores of the program over the files of a runtime. Contracts see the path of each store
/// that it made, though of each only a mark without bytes is kept.
#[derive(Drop)]
pub struct ProgramStores<'a, R> {
    rt: &'a R,
    alloc: Global,
    hash_keys: Option<RandomState>,
    made: Vec<Snapshot<ProgramStore<&'a R>>>,
}

impl<'a, R> Model for ProgramStores<'a, R> {
    ghost use Rattle.std.specs.Prelude.{ℕ, List, Option, map};
    ghost use Rattle.tool_stores.specs.ProgramStore.{path_of};

    ghost Value = { List (Option (List ℕ)) };

    ghost view = { λ m. map (λ s. path_of s.value) m.made.items };
}

impl<'a, R: Files> ProgramStores<'a, R> {
    /// A maker that has made no store. It keeps the runtime, which files need, and the keys under which
    /// tables hash.
    pub fn new(rt: &'a R, alloc: Global, hash_keys: Option<RandomState>) -> ProgramStores<'a, R>
        ensures { result ≡ [] }
    {
        ProgramStores {
            rt,
            alloc,
            hash_keys,
            made: Vec::new(alloc),
        }
    }
}

/// Keeps a mark of a store, for which there is room, and hands the store back.
fn marked<'a, R>(
    made: &mut Vec<Snapshot<ProgramStore<&'a R>>>,
    store: ProgramStore<&'a R>,
) -> ProgramStore<&'a R>
    requires room { vec_len made.old < vec_capacity made.old }
    ensures same { result ≡ store.entry }
    ensures made { map (λ s. path_of s.value) made.new.items
        ≡ map (λ s. path_of s.value) made.old.items ++ path_of store.entry ∷ [] }
{
    made.push_reserved(Snapshot::of(&store));
    store
}

impl<'a, R: Files + Sync> StoreMaker for ProgramStores<'a, R> {
    type Store = ProgramStore<&'a R>;

    ghost made = { λ m. m };

    fn make(
        &mut self,
        dir: Option<&Text>,
        partition: usize,
    ) -> Result<ProgramStore<&'a R>, AllocError>
        ensures held { IfOk result (λ s. program_held s ≡ 0) }
        ensures faults { IfOk result (λ s. program_faults s ≡ 0) }
        ensures tells { dir.entry ≡ None → IfOk result (λ s. program_told s ≡ Some []) }
        ensures sure { dir.entry ≡ None → IfOk result (λ s. IsTrue (is_program_sure s)) }
        ensures path { IfOk result
            (λ s. path_of s ≡ store_path (option_map (λ d. d.now) dir.entry) partition) }
        ensures made { IfOk result (λ s. self.new ≡ self.old ++ path_of s ∷ []) }
        ensures unmade { OnErr result (self.new ≡ self.old) }
    {
        self.made.reserve(1)?;
        match dir {
            None => {
                let store = MemoryStore::new(self.alloc, Vec::new(self.alloc));
                Ok(marked(&mut self.made, ProgramStore::Memory(store)))
            }
            Some(dir) => {
                let store = FileStore::new(self.rt, self.alloc, dir, partition)?;
                Ok(marked(&mut self.made, ProgramStore::Files(store)))
            }
        }
    }

    fn hash_keys(&self) -> Option<RandomState> {
        self.hash_keys
    }
}
