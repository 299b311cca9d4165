//! Where frames are put, and fetched from by number.

ghost use Rattle.std.specs.Prelude.{◌≡◌, ◌<◌, ◌+◌, ◌-◌, ◌^◌, ℕ, List, [], Bool, Option, IfOk, OnOk, OnErr, IsErrOf, IsTrue};
ghost use Rattle.pipe_columns.specs.Causes.{HasCause};
ghost use Rattle.pipe_spill.specs.Store.{HasHeld, IsFrameAt, with_frame};
ghost use Rattle.pipe_spill.specs.declared.store.StoreError.TheVariants as store_error;

/// Why a store refused a frame, or gave none.
#[derive(Debug, Drop, PartialEq, Eq)]
pub enum StoreError {
    /// The store failed.
    Failed,
    /// Memory ran out.
    Memory,
}

/// Frames, each kept whole under the number of its put.
pub trait SpillStore {
    /// The frames in the order of their puts, where the store tells them.
    ghost told: { Self → Option (List (List ℕ)) };

    /// How many frames there are.
    ghost held: { Self → ℕ };

    /// How often the store failed.
    ghost faults: { Self → ℕ };

    /// Whether the store never fails.
    ghost sure: { Self → Bool };

    /// The path of its file, where it has one.
    ghost path: { Self → Option (List ℕ) };

    /// As many frames are told as are held.
    ghost tells_all: { (s : Self) → HasHeld (told s) (held s) };

    /// A sure store has never failed.
    ghost never_failed: { (s : Self) → IsTrue (sure s) → faults s ≡ 0 };

    /// How many frames there are.
    fn held(&self) -> u64
        ensures { result ≡ held self.now };

    /// Keeps a frame, and answers its number.
    fn put(&mut self, frame: &[u8]) -> Result<u64, StoreError>
        requires room { held self.old < 2 ^ 64 - 1 }
        ensures number { IfOk result (λ n. n ≡ held self.old) }
        ensures held { OnOk result (held self.new ≡ held self.old + 1) }
        ensures told { OnOk result (told self.new ≡ with_frame (told self.old) frame.now) }
        ensures refused { OnErr result (told self.new ≡ told self.old) }
        ensures refused_held { OnErr result (held self.new ≡ held self.old) }
        ensures sure { sure self.new ≡ sure self.old }
        ensures path { path self.new ≡ path self.old }
        ensures cause { HasCause (faults self.old) (faults self.new)
            (IsErrOf result store_error.Failed) }
        ensures calm { (IsErrOf result store_error.Failed → ⊥) → faults self.new ≡ faults self.old };

    /// Leaves the frame of a number in `into`, and nothing else.
    fn get(&mut self, number: u64, into: &mut Vec<u8>) -> Result<(), StoreError>
        requires held { number < held self.old }
        ensures frame { OnOk result (IsFrameAt (told self.old) number into.new.items) }
        ensures refused { OnErr result (into.new.items ≡ []) }
        ensures told { told self.new ≡ told self.old }
        ensures held { held self.new ≡ held self.old }
        ensures sure { sure self.new ≡ sure self.old }
        ensures path { path self.new ≡ path self.old }
        ensures cause { HasCause (faults self.old) (faults self.new)
            (IsErrOf result store_error.Failed) }
        ensures calm { (IsErrOf result store_error.Failed → ⊥) → faults self.new ≡ faults self.old };
}
