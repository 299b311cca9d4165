//! Who makes the stores of the program.

ghost use Rattle.std.specs.Prelude.{◌≡◌, ◌+◌, ◌++◌, ◌∷◌, [], IfOk, IsTrue, None, OnErr, OnOk, Some};
ghost use Rattle.std.specs.Prelude.{length, option_map};
ghost use Rattle.pipe_spill.specs.FileStore.{path_in};
ghost use Rattle.lavzimo_stores.specs.OwnStore.{file_of, is_own_sure, own_faults, own_held};
ghost use Rattle.lavzimo_stores.specs.OwnStore.{own_path, own_told};

use crate::made_folders::MadeFolders;
use crate::maker::SpillMaker;
use crate::own_store::OwnStore;
use crate::unnamed_file::UnnamedFile;
use pipe_columns::Text;
use pipe_spill::{FileStore, MemoryStore};
use std::alloc::{AllocError, Global};
use std::fs::{File, Files};
use std::hash::RandomState;
use std::marker::Model;

/// Makes the stores of the program over the files of a runtime. Contracts see the folder of each
/// store that it made.
#[derive(Drop)]
pub struct OwnStores<'a, R> {
    rt: &'a R,
    alloc: Global,
    process: u32,
    salt: u64,
    hash_keys: Option<RandomState>,
    made: usize,
    folders: MadeFolders,
}

impl<'a, R> Model for OwnStores<'a, R> {
    ghost use Rattle.std.specs.Prelude.{◌≡◌, ℕ, List, Option, length};

    ghost Value = { List (Option (List ℕ)) };

    ghost view = { λ m. m.folders };

    ghost invariant = { λ m. length m.folders ≡ m.made };
}

impl<'a, R: Files<File = File>> OwnStores<'a, R> {
    /// A maker that has made no store. Names of files end in the number of the process and a salt,
    /// which tells apart what numbers don't: makers of one process, and processes that don't see
    /// each other.
    pub fn new(
        rt: &'a R,
        alloc: Global,
        process: u32,
        salt: u64,
        hash_keys: Option<RandomState>,
    ) -> OwnStores<'a, R>
        ensures { result ≡ [] }
    {
        OwnStores {
            rt,
            alloc,
            process,
            salt,
            hash_keys,
            made: 0,
            folders: MadeFolders::none(),
        }
    }

    /// A store in a folder, of a number of its own.
    fn in_folder(&self, dir: &Text) -> Result<OwnStore<&'a R>, AllocError>
        ensures held { IfOk result (λ s. own_held s ≡ 0) }
        ensures faults { IfOk result (λ s. own_faults s ≡ 0) }
        ensures file { IfOk result (λ s. file_of s ≡ Some (path_in dir.now (length self.now))) }
    {
        let file = UnnamedFile::new(self.rt, self.alloc, self.process, self.salt);
        let store = FileStore::new(file, self.alloc, dir, self.made)?;
        Ok(OwnStore::Unnamed(store))
    }
}

impl<'a, R: Files<File = File> + Sync> SpillMaker for OwnStores<'a, R> {
    ghost use Rattle.std.specs.Prelude.{refl};

    type Store = OwnStore<&'a R>;

    ghost made = { λ m. length m };

    ghost folders = { λ m. m };

    ghost all_told = { λ m. refl };

    fn make(&mut self, dir: Option<&Text>) -> Result<OwnStore<&'a R>, AllocError>
        ensures held { IfOk result (λ s. own_held s ≡ 0) }
        ensures faults { IfOk result (λ s. own_faults s ≡ 0) }
        ensures tells { dir.entry ≡ None → IfOk result (λ s. own_told s ≡ Some []) }
        ensures sure { dir.entry ≡ None → IfOk result (λ s. IsTrue (is_own_sure s)) }
        ensures nameless { IfOk result (λ s. own_path s ≡ None) }
        ensures made { OnOk result (length self.new ≡ length self.old + 1) }
        ensures unmade { OnErr result (length self.new ≡ length self.old) }
        ensures folder { OnOk result (self.new
            ≡ self.old ++ option_map (λ d. d.now) dir.entry ∷ []) }
        ensures no_folder { OnErr result (self.new ≡ self.old) }
        ensures file { IfOk result (λ s. file_of s
            ≡ option_map (λ d. path_in d.now (length self.old)) dir.entry) }
    {
        let Some(made) = self.made.checked_add(1) else {
            return Err(AllocError);
        };
        let store = match dir {
            None => OwnStore::Memory(MemoryStore::new(self.alloc, Vec::new(self.alloc))),
            Some(dir) => self.in_folder(dir)?,
        };
        self.made = made;
        self.folders.add(dir);
        Ok(store)
    }

    fn hash_keys(&self) -> Option<RandomState> {
        self.hash_keys
    }
}
