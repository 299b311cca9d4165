//! Who makes the stores of a run.

ghost use Rattle.std.specs.Prelude.{◌≡◌, ◌++◌, ◌∷◌, [], ℕ, IfOk, IsTrue, List, None, OnErr, Option, Some, option_map};
ghost use Rattle.tool_stores.specs.StorePath.{store_path};

use pipe_columns::Text;
use pipe_spill::SpillStore;
use std::alloc::AllocError;
use std::hash::RandomState;

/// Makes the store of each partition of a run, and has the keys under which its tables hash.
pub trait StoreMaker {
    type Store: SpillStore + Drop + Send;

    /// The path of each store that was made, in order.
    ghost made: { Self → List (Option (List ℕ)) };

    /// The store of a partition, in a folder or, where none is named, in memory. It touches no disk.
    fn make(&mut self, dir: Option<&Text>, partition: usize) -> Result<Self::Store, AllocError>
        ensures held { IfOk result (λ s. Self.Store.held s ≡ 0) }
        ensures faults { IfOk result (λ s. Self.Store.faults s ≡ 0) }
        ensures tells { dir.entry ≡ None → IfOk result (λ s. Self.Store.told s ≡ Some []) }
        ensures sure { dir.entry ≡ None → IfOk result (λ s. IsTrue (Self.Store.sure s)) }
        ensures path { IfOk result
            (λ s. Self.Store.path s ≡ store_path (option_map (λ d. d.now) dir.entry) partition) }
        ensures made { IfOk result (λ s. made self.new ≡ made self.old ++ Self.Store.path s ∷ []) }
        ensures unmade { OnErr result (made self.new ≡ made self.old) };

    /// The keys under which the tables of a run hash where the keys of many groups have one hash, none
    /// for fixed ones. No answer depends on them.
    fn hash_keys(&self) -> Option<RandomState> {
        None
    }
}
