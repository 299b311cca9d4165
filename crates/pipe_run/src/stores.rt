//! Stores that are handed back.

ghost use Rattle.std.specs.Prelude.{◌≡◌, ◌≤◌, map, vec_capacity, vec_len};
ghost use Rattle.pipe_plan.specs.Stores.{stores_seen};

use pipe_global::ClosedPartition;
use pipe_spill::SpillStore;

/// The stores of closed partitions, in order. There is room for them.
pub(crate) fn stores_of<S: SpillStore + Drop>(
    closed: Vec<ClosedPartition<S>>,
    mut room: Vec<S>,
) -> Vec<S>
    requires { (vec_len room ≡ 0) × (vec_len closed ≤ vec_capacity room) }
    ensures { stores_seen S.held S.told S.faults S.sure S.path result.items ≡ map (λ c. c.store) closed.items }
{
    for partition in closed {
        let (_journal, store) = partition.into_parts();
        room.push_reserved(store);
    }
    room
}
