//! Stores that stand for the files of a folder.

ghost use Rattle.std.specs.Prelude.{◌≡◌, IfOk, IsTrue, Some, codes, option_map};

use pipe_columns::Text;
use pipe_spill::{MemoryStore, SpillStore, StoreError};
use std::alloc::{AllocError, Global};
use std::marker::PhantomData;
use tool_stores::StoreMaker;

/// A store that stands for the file of a partition in the folder `x`.
#[derive(Drop)]
pub(crate) struct InFolder<S> {
    store: S,
    partition: usize,
}

impl<S: SpillStore> SpillStore for InFolder<S> {
    ghost use Rattle.std.specs.Prelude.{Some, codes};
    ghost use Rattle.pipe_spill.specs.FileStore.{path_in};

    ghost told = { λ s. S.told s.store };

    ghost held = { λ s. S.held s.store };

    ghost faults = { λ s. S.faults s.store };

    ghost sure = { λ s. S.sure s.store };

    ghost path = { λ s. Some (path_in (codes "x") s.partition) };

    ghost tells_all = { λ s. S.tells_all s.store };

    ghost never_failed = { λ s. S.never_failed s.store };

    fn held(&self) -> u64 {
        self.store.held()
    }

    fn put(&mut self, frame: &[u8]) -> Result<u64, StoreError> {
        self.store.put(frame)
    }

    fn get(&mut self, number: u64, into: &mut Vec<u8>) -> Result<(), StoreError> {
        self.store.get(number, into)
    }
}

/// Whether a folder is named, and it is `x`.
fn is_x(dir: Option<&Text>) -> bool
    ensures { IsTrue result → option_map (λ d. d.now) dir.entry ≡ Some (codes "x") }
{
    match dir {
        Some(dir) => dir.as_str() == "x",
        None => false,
    }
}

/// A store that a test makes, without a frame.
pub(crate) trait MadeStore: SpillStore + Drop + Send {
    /// A store of which listed calls fail, if it can.
    fn made(alloc: Global, failing: &[u64]) -> Result<Self, AllocError>
        ensures held { IfOk result (λ s. Self.held s ≡ 0) }
        ensures faults { IfOk result (λ s. Self.faults s ≡ 0) };
}

impl MadeStore for MemoryStore {
    fn made(alloc: Global, failing: &[u64]) -> Result<MemoryStore, AllocError> {
        Ok(MemoryStore::new(alloc, Vec::from_slice(alloc, failing)?))
    }
}

/// Makes stores for the folder `x`, of which listed calls fail, and none for another. It keeps their
/// partitions.
#[derive(Drop)]
pub(crate) struct FolderStores<S> {
    alloc: Global,
    failing: &'static [u64],
    made: Vec<usize>,
    store: PhantomData<S>,
}

impl<S> FolderStores<S> {
    pub(crate) fn new(alloc: Global, failing: &'static [u64]) -> FolderStores<S> {
        FolderStores {
            alloc,
            failing,
            made: Vec::new(alloc),
            store: PhantomData,
        }
    }
}

impl<S: MadeStore> StoreMaker for FolderStores<S> {
    ghost use Rattle.std.specs.Prelude.{Some, codes, map};
    ghost use Rattle.pipe_spill.specs.FileStore.{path_in};

    type Store = InFolder<S>;

    ghost made = { λ m. map (λ p. Some (path_in (codes "x") p)) m.made.items };

    fn make(&mut self, dir: Option<&Text>, partition: usize) -> Result<InFolder<S>, AllocError> {
        if !is_x(dir) {
            return Err(AllocError);
        }
        let store = S::made(self.alloc, self.failing)?;
        self.made.push(partition)?;
        Ok(InFolder { store, partition })
    }
}
