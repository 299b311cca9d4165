//! Who makes the stores of a run.

ghost use Rattle.std.specs.Prelude.{◌≡◌, ◌+◌, ◌++◌, ◌∷◌, [], ℕ, IfOk, IsTrue, List, None, OnErr};
ghost use Rattle.std.specs.Prelude.{OnOk, Option, Some, length, option_map};

use pipe_columns::Text;
use pipe_spill::SpillStore;
use std::alloc::AllocError;
use std::hash::RandomState;

/// Makes the stores of a run, and has the keys under which its tables hash.
pub trait SpillMaker {
    type Store: SpillStore + Drop + Send;

    /// How many stores were made.
    ghost made: { Self → ℕ };

    /// The folder that each store was made in, in order; none of one in memory.
    ghost folders: { Self → List (Option (List ℕ)) };

    /// Each store that was made has its folder.
    ghost all_told: { (m : Self) → length (folders m) ≡ made m };

    /// A store, in a folder or, where none is named, in memory. It touches no disk.
    fn make(&mut self, dir: Option<&Text>) -> Result<Self::Store, AllocError>
        ensures held { IfOk result (λ s. Self.Store.held s ≡ 0) }
        ensures faults { IfOk result (λ s. Self.Store.faults s ≡ 0) }
        ensures tells { dir.entry ≡ None → IfOk result (λ s. Self.Store.told s ≡ Some []) }
        ensures sure { dir.entry ≡ None → IfOk result (λ s. IsTrue (Self.Store.sure s)) }
        ensures nameless { IfOk result (λ s. Self.Store.path s ≡ None) }
        ensures made { OnOk result (made self.new ≡ made self.old + 1) }
        ensures unmade { OnErr result (made self.new ≡ made self.old) }
        ensures folder { OnOk result (folders self.new
            ≡ folders self.old ++ option_map (λ d. d.now) dir.entry ∷ []) }
        ensures no_folder { OnErr result (folders self.new ≡ folders self.old) };

    /// The keys under which the tables of a run hash where the keys of many groups have one hash,
    /// none for fixed ones. No answer depends on them.
    fn hash_keys(&self) -> Option<RandomState> {
        None
    }
}
