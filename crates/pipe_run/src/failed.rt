//! The partition whose store refused a put.

ghost use Rattle.std.specs.Prelude.{◌≡◌, ◌<◌, ℕ, IfNone, IfSome, false, length, slice_index_or, true};

use pipe_global::ClosedPartition;
use pipe_spill::SpillStore;

/// The least partition that is failed.
pub(crate) fn failed_one<S: SpillStore + Drop>(closed: &[ClosedPartition<S>]) -> Option<usize>
    ensures none { IfNone result ((p : ℕ) (d : _) → p < length closed.now
        → (slice_index_or closed.now p d).failed ≡ false) }
    ensures some { IfSome result (λ p. (p < length closed.now)
        × ((d : _) → (slice_index_or closed.now p d).failed ≡ true)) }
    ensures least { IfSome result (λ p. (k : ℕ) (d : _) → k < p
        → (slice_index_or closed.now k d).failed ≡ false) }
{
    for partition in 0..closed.len() {
        if closed[partition].failed() {
            return Some(partition);
        }
    }
    None
}
