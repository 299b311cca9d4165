//! What a worker counts of its own events.

ghost use Rattle.std.specs.Prelude.{◌≡◌, ◌+◌, ◌<◌, ◌≤◌, ◌^◌, length, replicate, sum, IfOk};
ghost use Rattle.pipe_global.specs.Shares.{refused_puts_in, next_pick, one_more_pick, raised, refused_one, share_of};

use crate::naming::{Naming, OfFaults, OfPartitions, OfRefusals, OfWorkers};
use crate::tally::Tally;
use std::alloc::{AllocError, Global};
use std::marker::Model;
use std::sync::ledger::Share;

/// How many picks a worker made and, for each partition, how many events, and how many puts that the
/// store refused.
#[derive(Drop)]
pub struct Shares<R: Naming> {
    worker: usize,
    picks: usize,
    events: Vec<u64>,
    faults: Vec<u64>,
    event_part: Share<OfWorkers<R>>,
    fault_part: Share<OfFaults<R>>,
}

impl<R: Naming> Model for Shares<R> {
    ghost use Rattle.std.specs.Prelude.{◌≡◌, ◌<◌, length, sum};
    ghost use Rattle.pipe_global.specs.Shares.{SharesSeen};

    ghost Value = { SharesSeen };

    ghost view = { λ s. record {
      worker = s.worker;
      picks = s.picks;
      events = s.events.items;
      faults = s.faults.items;
    } };

    ghost invariant = { λ s. (s.worker < R.run.limits.workers)
        × (length s.events.items ≡ R.run.limits.partitions)
        × (length s.faults.items ≡ R.run.limits.partitions)
        × (s.event_part.parts ≡ 1) × (s.event_part.amount ≡ sum s.events.items)
        × (s.fault_part.parts ≡ 1) × (s.fault_part.amount ≡ sum s.faults.items) };
}

impl<R: Naming> Shares<R> {
    /// The shares of a worker that has made no event.
    pub(crate) fn new(
        alloc: Global,
        worker: usize,
        partitions: usize,
        event_part: Share<OfWorkers<R>>,
        fault_part: Share<OfFaults<R>>,
    ) -> Result<Shares<R>, AllocError>
        requires exists { worker < R.run.limits.workers }
        requires partitions { partitions ≡ R.run.limits.partitions }
        requires event_part { (event_part.parts ≡ 1) × (event_part.amount ≡ 0) }
        requires fault_part { (fault_part.parts ≡ 1) × (fault_part.amount ≡ 0) }
        ensures { IfOk result (λ s. s ≡ record {
          worker = worker;
          picks = 0;
          events = replicate partitions 0;
          faults = replicate partitions 0;
        }) }
    {
        let events = vec![in alloc; 0u64; partitions]?;
        let faults = vec![in alloc; 0u64; partitions]?;
        Ok(Shares {
            worker,
            picks: 0,
            events,
            faults,
            event_part,
            fault_part,
        })
    }

    /// The shares of a worker that made events before, and whose part counts them.
    pub(crate) fn resumed(
        worker: usize,
        picks: usize,
        events: Vec<u64>,
        faults: Vec<u64>,
        event_part: Share<OfWorkers<R>>,
        fault_part: Share<OfFaults<R>>,
    ) -> Shares<R>
        requires exists { worker < R.run.limits.workers }
        requires events { length events.items ≡ R.run.limits.partitions }
        requires faults { faults.items ≡ replicate R.run.limits.partitions 0 }
        requires event_part { (event_part.parts ≡ 1) × (event_part.amount ≡ sum events.items) }
        requires fault_part { (fault_part.parts ≡ 1) × (fault_part.amount ≡ 0) }
        ensures { result ≡ record {
          worker = worker;
          picks = picks;
          events = events.items;
          faults = faults.items;
        } }
    {
        Shares {
            worker,
            picks,
            events,
            faults,
            event_part,
            fault_part,
        }
    }

    /// The worker's number.
    pub fn worker(&self) -> usize
        ensures is { result ≡ self.now.worker }
        ensures in_run { result < R.run.limits.workers }
        ensures shares { length self.now.events ≡ R.run.limits.partitions }
        ensures faults { length self.now.faults ≡ R.run.limits.partitions }
    {
        self.worker
    }

    /// How many picks the worker made.
    pub fn picks(&self) -> usize
        ensures { result ≡ self.now.picks }
    {
        self.picks
    }

    /// How many events the worker made in a partition.
    pub fn of(&self, partition: usize) -> u64
        requires { partition < R.run.limits.partitions }
        ensures { result ≡ share_of self.now partition }
    {
        self.events[partition]
    }

    /// How many of the worker's puts into a partition's store were refused.
    pub fn faults(&self, partition: usize) -> u64
        requires { partition < R.run.limits.partitions }
        ensures { result ≡ refused_puts_in self.now partition }
    {
        self.faults[partition]
    }

    /// The partition of the next pick. Where no number is left for one more pick, which no run comes
    /// to, it wants memory for it.
    pub(crate) fn next_pick(&self) -> Result<usize, AllocError>
        requires { 0 < R.run.limits.partitions }
        ensures is { IfOk result (λ p. p ≡ next_pick R.run.limits.partitions self.now) }
        ensures exists { IfOk result (λ p. p < R.run.limits.partitions) }
        ensures room { IfOk result (λ _. self.now.picks + 1 < 2 ^ 64) }
    {
        if self.picks == usize::MAX {
            return Err(AllocError);
        }
        let sum = self.worker as u128 + self.picks as u128;
        Ok((sum % self.events.len() as u128) as usize)
    }

    /// Counts an event in a partition.
    pub(crate) fn raise(
        &mut self,
        tally: &mut Tally<R>,
        part: &mut Share<OfPartitions<R>>,
        partition: usize,
    )
        requires exists { partition < R.run.limits.partitions }
        requires room { share_of self.old partition + 1 < 2 ^ 64 }
        requires part { part.old.parts ≡ 1 }
        ensures shares { self.new ≡ raised self.old partition }
        ensures part { (part.new.parts ≡ 1) × (part.new.amount ≡ part.old.amount + 1) }
    {
        tally.raise(part, &mut self.event_part);
        self.events[partition] += 1;
    }

    /// Counts a refused put in a partition.
    pub(crate) fn refuse(
        &mut self,
        tally: &mut Tally<R>,
        part: &mut Share<OfRefusals<R>>,
        partition: usize,
    )
        requires exists { partition < R.run.limits.partitions }
        requires room { refused_puts_in self.old partition + 1 < 2 ^ 64 }
        requires part { part.old.parts ≡ 1 }
        ensures shares { self.new ≡ refused_one self.old partition }
        ensures part { (part.new.parts ≡ 1) × (part.new.amount ≡ part.old.amount + 1) }
    {
        tally.refuse(part, &mut self.fault_part);
        self.faults[partition] += 1;
    }

    /// Counts a pick.
    pub(crate) fn pick(&mut self)
        requires { self.old.picks + 1 < 2 ^ 64 }
        ensures { self.new ≡ one_more_pick self.old }
    {
        self.picks += 1;
    }

    /// Adds the worker's parts to the others.
    pub(crate) fn hand_back(self, events: &mut Share<OfWorkers<R>>, faults: &mut Share<OfFaults<R>>)
        ensures parts { (events.new.parts ≡ events.old.parts + 1)
            × (faults.new.parts ≡ faults.old.parts + 1) }
        ensures events { events.new.amount ≡ events.old.amount + sum self.events }
        ensures faults { faults.new.amount ≡ faults.old.amount + sum self.faults }
    {
        let Shares {
            event_part,
            fault_part,
            ..
        } = self;
        events.merge(event_part);
        faults.merge(fault_part);
    }
}
