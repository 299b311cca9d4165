//! What one worker's calls leave in a partition, over a store in memory.

ghost use Rattle.std.specs.Prelude.{◌≡◌, All, IfOk, vec_len};
ghost use Rattle.pipe_spill.specs.MemoryStore.{held_of};

use crate::planned::{FRAME, driven};
use pipe_global::{ClosedPartition, Journal};
use pipe_plan::PartitionEvent;
use pipe_spill::MemoryStore;
use std::alloc::Global;
use std::test::Fail;

/// Two stores without a frame, of which the second fails at calls.
pub(crate) fn stores_of(alloc: Global, failing: &[u64]) -> Result<Vec<MemoryStore>, Fail>
    ensures count { IfOk result (λ v. vec_len v ≡ 2) }
    ensures empty { IfOk result (λ v. All (λ s. held_of s ≡ 0) v.items) }
{
    let failing = Vec::from_slice(alloc, failing)?;
    let first = MemoryStore::new(alloc, Vec::new(alloc));
    let second = MemoryStore::new(alloc, failing);
    Ok(vec![in alloc; first, second]?)
}

/// Whether a journal has the events of the plan.
fn has_events(journal: &Journal) -> bool {
    let events = [
        PartitionEvent::Arrive { worker: 1 },
        PartitionEvent::Arrive { worker: 1 },
        PartitionEvent::Dump { worker: 1 },
    ];
    journal.events() == events.as_slice()
}

/// Whether a store has the frame of the plan, and no other.
fn has_frame(store: &MemoryStore) -> bool {
    let frames = store.frames();
    frames.len() == 1 && frames[0].as_slice() == FRAME.as_slice()
}

/// Whether a partition was failed as is wanted, and has the journal and the frame of the plan.
fn is_as_planned(closed: ClosedPartition<MemoryStore>, failed: bool) -> bool {
    let counted = closed.failed() == failed && closed.arrived() == 2;
    let (journal, store) = closed.into_parts();
    counted && has_events(&journal) && has_frame(&store)
}

#[test]
fn calls_of_one_worker_by_its_plan(rt: HostRuntime) -> Result<(), Fail> {
    let closed = driven(&rt, rt.alloc(), stores_of(rt.alloc(), &[])?)?;
    assert!(rt; is_as_planned(closed, false));
    Ok(())
}

#[test]
fn a_refused_put_is_made_again(rt: HostRuntime) -> Result<(), Fail> {
    let closed = driven(&rt, rt.alloc(), stores_of(rt.alloc(), &[0])?)?;
    assert!(rt; is_as_planned(closed, true));
    Ok(())
}
