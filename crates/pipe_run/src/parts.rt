//! What closed partitions leave.

ghost use Rattle.std.specs.Prelude.{◌≡◌, ◌<◌, ◌≤◌, ◌^◌, map, sum_by, vec_capacity, vec_len};
ghost use Rattle.pipe_plan.specs.Stores.{stores_seen};

use pipe_global::{ClosedPartition, Journal};
use pipe_spill::SpillStore;

/// The journals and the stores of partitions, in order, and how many rows arrived in all.
#[derive(Drop)]
pub(crate) struct Parts<S: SpillStore + Drop> {
    pub(crate) journals: Vec<Journal>,
    pub(crate) stores: Vec<S>,
    pub(crate) arrived: u64,
}

/// What closed partitions leave. There is room for their journals and for their stores.
pub(crate) fn parts_of<S: SpillStore + Drop>(
    closed: Vec<ClosedPartition<S>>,
    mut journals: Vec<Journal>,
    mut stores: Vec<S>,
) -> Parts<S>
    requires journals { (vec_len journals ≡ 0) × (vec_len closed ≤ vec_capacity journals) }
    requires stores { (vec_len stores ≡ 0) × (vec_len closed ≤ vec_capacity stores) }
    requires few { sum_by (λ c. c.arrived) closed.items < 2 ^ 64 }
    ensures journals { result.journals.items ≡ map (λ c. c.journal) closed.items }
    ensures stores { stores_seen S.held S.told S.faults S.sure S.path result.stores.items
        ≡ map (λ c. c.store) closed.items }
    ensures arrived { result.arrived ≡ sum_by (λ c. c.arrived) closed.items }
{
    let mut arrived = 0;
    for partition in closed {
        arrived += partition.arrived();
        let (journal, store) = partition.into_parts();
        journals.push_reserved(journal);
        stores.push_reserved(store);
    }
    Parts {
        journals,
        stores,
        arrived,
    }
}
