//! A partition as a run begins, and as it ends.

ghost use Rattle.std.specs.Prelude.{◌≡◌, ◌+◌, ◌<◌, ◌≤◌, ◌↔◌, [], None, length, replicate, true};
ghost use Rattle.pipe_plan.specs.Stores.{store_seen};
ghost use Rattle.pipe_groups.specs.Shape.{shape_of};
ghost use Rattle.pipe_global.specs.Closed.{IsClosed};
ghost use Rattle.pipe_global.specs.Partition.{IsRunnable, store_of};

use crate::closed::ClosedPartition;
use crate::contents::Contents;
use crate::naming::{Naming, OfPartitions, OfRefusals};
use crate::partition::Partition;
use crate::place::Place;
use pipe_spill::SpillStore;
use std::alloc::Global;
use std::sync::ledger::Share;

impl<S: SpillStore + Drop, R: Naming> Partition<S, R> {
    /// A partition of a run, before its first event.
    pub(crate) fn new(
        alloc: Global,
        number: usize,
        partitions: usize,
        place: Place,
        store: S,
        limit: usize,
        event_part: Share<OfPartitions<R>>,
        fault_part: Share<OfRefusals<R>>,
    ) -> Partition<S, R>
        requires run { IsRunnable R.run }
        requires exists { number < R.run.limits.partitions }
        requires partitions { partitions ≡ R.run.limits.partitions }
        requires shape { place.table.shape ≡ shape_of R.run.query }
        requires table { (place.table.limit ≡ None) × (place.table.groups ≡ []) }
        requires book { place.book.items ≡ replicate R.run.limits.workers 0 }
        requires store { store_seen S.held S.told S.faults S.sure S.path store ≡ store_of R.run number }
        requires limit { limit ≡ R.run.limits.payload_limit }
        requires event_part { (event_part.parts ≡ 1) × (event_part.amount ≡ 0) }
        requires fault_part { (fault_part.parts ≡ 1) × (fault_part.amount ≡ 0) }
    {
        let Place { table, book } = place;
        Partition {
            contents: Contents::new(alloc, number, partitions, table, book, store),
            limit,
            event_part,
            fault_part,
        }
    }

    /// Ends the run for the partition, whose parts are added to others.
    pub(crate) fn hand_back(
        self,
        events: &mut Share<OfPartitions<R>>,
        refusals: &mut Share<OfRefusals<R>>,
    ) -> ClosedPartition<S>
        ensures is { result ≡ self }
        ensures closed { IsClosed R.run result.number result }
        ensures parts { (events.new.parts ≡ events.old.parts + 1)
            × (refusals.new.parts ≡ refusals.old.parts + 1) }
        ensures events { events.new.amount ≡ events.old.amount + length result.journal }
        ensures refusals { refusals.old.amount ≤ refusals.new.amount }
        ensures failed { (result.failed ≡ true) ↔ (refusals.old.amount < refusals.new.amount) }
    {
        let Partition {
            contents,
            limit: _,
            event_part,
            fault_part,
        } = self;
        events.merge(event_part);
        refusals.merge(fault_part);
        ClosedPartition { contents }
    }
}
