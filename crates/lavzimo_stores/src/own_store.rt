//! A store of a run.

ghost use Rattle.std.specs.Prelude.{◌≡◌, ◌<◌, ◌+◌, ◌-◌, ◌^◌, IfOk, OnOk, OnErr, IsErrOf, []};
ghost use Rattle.pipe_columns.specs.Causes.{HasCause};
ghost use Rattle.pipe_spill.specs.Store.{IsFrameAt, with_frame};
ghost use Rattle.pipe_spill.specs.declared.store.StoreError.TheVariants as store_error;
ghost use Rattle.lavzimo_stores.specs.OwnStore.{is_own_sure, own_faults, own_held, own_told};

use crate::unnamed_file::UnnamedFile;
use pipe_spill::{FileStore, MemoryStore, SpillStore, StoreError};
use std::fs::{File, Files};

/// A store in memory, or in a file without a name.
#[derive(Drop)]
pub enum OwnStore<R> {
    /// In memory.
    Memory(MemoryStore),
    /// In a file.
    Unnamed(FileStore<UnnamedFile<R>>),
}

impl<R: Files<File = File> + Drop> SpillStore for OwnStore<R> {
    ghost use Rattle.lavzimo_stores.specs.OwnStore.{has_held, is_own_sure, own_faults, own_held};
    ghost use Rattle.lavzimo_stores.specs.OwnStore.{own_path, own_told, sure_never_failed};

    ghost told = { own_told };

    ghost held = { own_held };

    ghost faults = { own_faults };

    ghost sure = { is_own_sure };

    ghost path = { own_path };

    ghost tells_all = { has_held };

    ghost never_failed = { sure_never_failed };

    fn held(&self) -> u64
        ensures { result ≡ own_held self.now }
    {
        match self {
            OwnStore::Memory(store) => store.held(),
            OwnStore::Unnamed(store) => store.held(),
        }
    }

    fn put(&mut self, frame: &[u8]) -> Result<u64, StoreError>
        requires room { own_held self.old < 2 ^ 64 - 1 }
        ensures number { IfOk result (λ n. n ≡ own_held self.old) }
        ensures held { OnOk result (own_held self.new ≡ own_held self.old + 1) }
        ensures told { OnOk result (own_told self.new ≡ with_frame (own_told self.old) frame.now) }
        ensures refused { OnErr result (own_told self.new ≡ own_told self.old) }
        ensures refused_held { OnErr result (own_held self.new ≡ own_held self.old) }
        ensures sure { is_own_sure self.new ≡ is_own_sure self.old }
        ensures cause { HasCause (own_faults self.old) (own_faults self.new)
            (IsErrOf result store_error.Failed) }
        ensures calm { (IsErrOf result store_error.Failed → ⊥)
            → own_faults self.new ≡ own_faults self.old }
    {
        match self {
            OwnStore::Memory(store) => store.put(frame),
            OwnStore::Unnamed(store) => store.put(frame),
        }
    }

    fn get(&mut self, number: u64, into: &mut Vec<u8>) -> Result<(), StoreError>
        requires held { number < own_held self.old }
        ensures frame { OnOk result (IsFrameAt (own_told self.old) number into.new.items) }
        ensures refused { OnErr result (into.new.items ≡ []) }
        ensures told { own_told self.new ≡ own_told self.old }
        ensures held { own_held self.new ≡ own_held self.old }
        ensures sure { is_own_sure self.new ≡ is_own_sure self.old }
        ensures cause { HasCause (own_faults self.old) (own_faults self.new)
            (IsErrOf result store_error.Failed) }
        ensures calm { (IsErrOf result store_error.Failed → ⊥)
            → own_faults self.new ≡ own_faults self.old }
    {
        match self {
            OwnStore::Memory(store) => store.get(number, into),
            OwnStore::Unnamed(store) => store.get(number, into),
        }
    }
}
