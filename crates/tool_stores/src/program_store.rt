//! A store of the program.

ghost use Rattle.std.specs.Prelude.{◌≡◌, ◌<◌, ◌+◌, ◌-◌, ◌^◌, IfOk, OnOk, OnErr, IsErrOf, []};
ghost use Rattle.pipe_columns.specs.Causes.{HasCause};
ghost use Rattle.pipe_spill.specs.Store.{IsFrameAt, with_frame};
ghost use Rattle.pipe_spill.specs.declared.store.StoreError.TheVariants as store_error;
ghost use Rattle.tool_stores.specs.ProgramStore.{program_faults, program_held, is_program_sure, path_of, program_told};

use pipe_spill::{FileStore, MemoryStore, SpillStore, StoreError};
use std::fs::Files;

/// A store in memory, or in a file of a folder.
#[derive(Drop)]
pub enum ProgramStore<R> {
    /// In memory.
    Memory(MemoryStore),
    /// In a file.
    Files(FileStore<R>),
}

impl<R: Files + Drop> SpillStore for ProgramStore<R> {
    ghost use Rattle.tool_stores.specs.ProgramStore.{program_faults, has_held, program_held, is_program_sure, path_of, sure_never_failed, program_told};

    ghost told = { program_told };

    ghost held = { program_held };

    ghost faults = { program_faults };

    ghost sure = { is_program_sure };

    ghost path = { path_of };

    ghost tells_all = { has_held };

    ghost never_failed = { sure_never_failed };

    fn held(&self) -> u64
        ensures { result ≡ program_held self.now }
    {
        match self {
            ProgramStore::Memory(store) => store.held(),
            ProgramStore::Files(store) => store.held(),
        }
    }

    fn put(&mut self, frame: &[u8]) -> Result<u64, StoreError>
        requires room { program_held self.old < 2 ^ 64 - 1 }
        ensures number { IfOk result (λ n. n ≡ program_held self.old) }
        ensures held { OnOk result (program_held self.new ≡ program_held self.old + 1) }
        ensures told { OnOk result (program_told self.new ≡ with_frame (program_told self.old) frame.now) }
        ensures refused { OnErr result (program_told self.new ≡ program_told self.old) }
        ensures refused_held { OnErr result (program_held self.new ≡ program_held self.old) }
        ensures sure { is_program_sure self.new ≡ is_program_sure self.old }
        ensures cause { HasCause (program_faults self.old) (program_faults self.new)
            (IsErrOf result store_error.Failed) }
        ensures calm { (IsErrOf result store_error.Failed → ⊥)
            → program_faults self.new ≡ program_faults self.old }
        ensures path { path_of self.new ≡ path_of self.old }
    {
        match self {
            ProgramStore::Memory(store) => store.put(frame),
            ProgramStore::Files(store) => store.put(frame),
        }
    }

    fn get(&mut self, number: u64, into: &mut Vec<u8>) -> Result<(), StoreError>
        requires held { number < program_held self.old }
        ensures frame { OnOk result (IsFrameAt (program_told self.old) number into.new.items) }
        ensures refused { OnErr result (into.new.items ≡ []) }
        ensures told { program_told self.new ≡ program_told self.old }
        ensures held { program_held self.new ≡ program_held self.old }
        ensures sure { is_program_sure self.new ≡ is_program_sure self.old }
        ensures cause { HasCause (program_faults self.old) (program_faults self.new)
            (IsErrOf result store_error.Failed) }
        ensures calm { (IsErrOf result store_error.Failed → ⊥)
            → program_faults self.new ≡ program_faults self.old }
        ensures path { path_of self.new ≡ path_of self.old }
    {
        match self {
            ProgramStore::Memory(store) => store.get(number, into),
            ProgramStore::Files(store) => store.get(number, into),
        }
    }
}
