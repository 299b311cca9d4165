//! A global table is closed: its partitions come out of their locks.

ghost use Rattle.std.specs.Prelude.{◌≡◌, ◌+◌, ◌<◌, ◌≤◌, vec_capacity, vec_len};
ghost use Rattle.pipe_global.specs.Closed.{all_events, all_faults, all_shares, AreClosed, AreFailed};

use crate::closed::ClosedPartition;
use crate::global_table::GlobalTable;
use crate::naming::{Naming, OfFaults, OfPartitions, OfRefusals, OfWorkers};
use crate::partition::Partition;
use crate::shares::Shares;
use crate::tally::Parts;
use pipe_spill::SpillStore;
use std::sync::ledger::Share;
use std::sync::{Mutex, Wait};

/// Adds the next partition to those that are closed, and its parts to others.
fn close_next<S: SpillStore + Drop, R: Naming>(
    partition: Partition<S, R>,
    events: &mut Share<OfPartitions<R>>,
    refusals: &mut Share<OfRefusals<R>>,
    closed: &mut Vec<ClosedPartition<S>>,
)
    requires number { partition.number ≡ vec_len closed.old }
    requires room { vec_len closed.old < vec_capacity closed.old }
    requires closed { AreClosed R.run closed.old.items }
    requires failed { AreFailed closed.old.items refusals.old.amount }
    requires events { events.old.amount ≡ all_events closed.old.items }
    ensures parts { (events.new.parts ≡ events.old.parts + 1)
        × (refusals.new.parts ≡ refusals.old.parts + 1) }
    ensures closed { AreClosed R.run closed.new.items }
    ensures failed { AreFailed closed.new.items refusals.new.amount }
    ensures events { events.new.amount ≡ all_events closed.new.items }
    ensures len { vec_len closed.new ≡ vec_len closed.old + 1 }
    ensures capacity { vec_capacity closed.new ≡ vec_capacity closed.old }
{
    closed.push_reserved(partition.hand_back(events, refusals));
}

/// The same of a partition whose number is to be tested. Where it is another one it waits for ever.
fn close<S: SpillStore + Drop, R: Naming, H: Wait>(
    rt: &H,
    partition: Partition<S, R>,
    events: &mut Share<OfPartitions<R>>,
    refusals: &mut Share<OfRefusals<R>>,
    closed: &mut Vec<ClosedPartition<S>>,
)
    requires room { vec_len closed.old < vec_capacity closed.old }
    requires closed { AreClosed R.run closed.old.items }
    requires failed { AreFailed closed.old.items refusals.old.amount }
    requires events { events.old.amount ≡ all_events closed.old.items }
    ensures parts { (events.new.parts ≡ events.old.parts + 1)
        × (refusals.new.parts ≡ refusals.old.parts + 1) }
    ensures closed { AreClosed R.run closed.new.items }
    ensures failed { AreFailed closed.new.items refusals.new.amount }
    ensures events { events.new.amount ≡ all_events closed.new.items }
    ensures len { vec_len closed.new ≡ vec_len closed.old + 1 }
    ensures capacity { vec_capacity closed.new ≡ vec_capacity closed.old }
{
    if partition.number() != closed.len() {
        for _ in rt.forever() {}
        unreachable!();
    }
    close_next(partition, events, refusals, closed);
}

/// Closes all partitions, whose parts are added to none.
fn close_all<S: SpillStore + Drop, R: Naming, H: Wait>(
    rt: &H,
    locks: Vec<Mutex<Partition<S, R>>>,
    events: &mut Share<OfPartitions<R>>,
    refusals: &mut Share<OfRefusals<R>>,
    mut closed: Vec<ClosedPartition<S>>,
) -> Vec<ClosedPartition<S>>
    requires none { vec_len closed ≡ 0 }
    requires room { vec_len locks ≤ vec_capacity closed }
    requires events { (events.old.parts ≡ 0) × (events.old.amount ≡ 0) }
    requires refusals { (refusals.old.parts ≡ 0) × (refusals.old.amount ≡ 0) }
    ensures len { vec_len result ≡ vec_len locks }
    ensures parts { (events.new.parts ≡ vec_len locks) × (refusals.new.parts ≡ vec_len locks) }
    ensures closed { AreClosed R.run result.items }
    ensures failed { AreFailed result.items refusals.new.amount }
    ensures events { events.new.amount ≡ all_events result.items }
{
    for lock in locks {
        close(rt, lock.into_inner(), events, refusals, &mut closed);
    }
    closed
}

/// Adds the parts of all workers to none.
fn gather<R: Naming>(
    shares: Vec<Shares<R>>,
    events: &mut Share<OfWorkers<R>>,
    faults: &mut Share<OfFaults<R>>,
)
    requires events { (events.old.parts ≡ 0) × (events.old.amount ≡ 0) }
    requires faults { (faults.old.parts ≡ 0) × (faults.old.amount ≡ 0) }
    ensures parts { (events.new.parts ≡ vec_len shares) × (faults.new.parts ≡ vec_len shares) }
    ensures events { events.new.amount ≡ all_shares shares.items }
    ensures faults { faults.new.amount ≡ all_faults shares.items }
{
    for one in shares {
        one.hand_back(events, faults);
    }
}

impl<S: SpillStore + Drop, R: Naming> GlobalTable<S, R> {
    /// Gives the partitions out of their locks, once all shares are back. It takes no memory.
    pub fn into_partitions<H: Wait>(self, rt: &H, shares: Vec<Shares<R>>) -> Vec<ClosedPartition<S>>
        requires { vec_len shares ≡ R.run.limits.workers }
        ensures len { vec_len result ≡ R.run.limits.partitions }
        ensures closed { AreClosed R.run result.items }
        ensures events { all_events result.items ≡ all_shares shares.items }
        ensures failed { AreFailed result.items (all_faults shares.items) }
    {
        let GlobalTable {
            partitions,
            tally,
            room,
        } = self;
        let mut tally = tally.into_inner();
        let mut parts = tally.no_parts();
        let closed = close_all(
            rt,
            partitions,
            &mut parts.partitions,
            &mut parts.refusals,
            room.into_inner().into_list(),
        );
        gather(shares, &mut parts.workers, &mut parts.faults);
        tally.compare(&mut parts);
        closed
    }
}
