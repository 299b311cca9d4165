//! The totals of the four ledgers of a run.

ghost use Rattle.std.specs.Prelude.{◌≡◌, ◌+◌};

use crate::books::Books;
use crate::naming::{Blanks, Naming, OfFaults, OfPartitions, OfRefusals, OfWorkers};
use std::sync::ledger::{Book, Share};

/// How many events partitions and workers counted, and how many refused puts: equal two by two.
#[derive(Drop)]
pub struct Tally<R: Naming> {
    partitions: Book<OfPartitions<R>>,
    workers: Book<OfWorkers<R>>,
    refusals: Book<OfRefusals<R>>,
    faults: Book<OfFaults<R>>,
    none: Parts<R>,
    pub ghost events_equal: { partitions.total ≡ workers.total },
    pub ghost faults_equal: { refusals.total ≡ faults.total },
}

/// Some parts of each ledger.
#[derive(Drop)]
pub struct Parts<R: Naming> {
    pub partitions: Share<OfPartitions<R>>,
    pub workers: Share<OfWorkers<R>>,
    pub refusals: Share<OfRefusals<R>>,
    pub faults: Share<OfFaults<R>>,
}

impl<R: Naming> Tally<R> {
    /// Opens the ledgers: nothing is counted, and all parts are there.
    pub fn open(blanks: Blanks) -> (Tally<R>, Parts<R>)
        requires partitions { (blanks.partitions.name ≡ R.partition_ledger)
            × (blanks.partitions.parts ≡ R.run.limits.partitions) }
        requires workers { (blanks.workers.name ≡ R.worker_ledger)
            × (blanks.workers.parts ≡ R.run.limits.workers) }
        requires refusals { (blanks.refusals.name ≡ R.refusal_ledger)
            × (blanks.refusals.parts ≡ R.run.limits.partitions) }
        requires faults { (blanks.faults.name ≡ R.fault_ledger)
            × (blanks.faults.parts ≡ R.run.limits.workers) }
        ensures partitions { (result.1.partitions.parts ≡ R.run.limits.partitions)
            × (result.1.partitions.amount ≡ 0) }
        ensures workers { (result.1.workers.parts ≡ R.run.limits.workers)
            × (result.1.workers.amount ≡ 0) }
        ensures refusals { (result.1.refusals.parts ≡ R.run.limits.partitions)
            × (result.1.refusals.amount ≡ 0) }
        ensures faults { (result.1.faults.parts ≡ R.run.limits.workers)
            × (result.1.faults.amount ≡ 0) }
    {
        let (books, parts) = Books::open(blanks);
        (Tally::of(books), parts)
    }

    /// The totals of books that are equal two by two.
    pub(crate) fn of(books: Books<R>) -> Tally<R>
        requires events { books.partitions.total ≡ books.workers.total }
        requires refused { books.refusals.total ≡ books.faults.total }
    {
        let Books {
            partitions,
            workers,
            refusals,
            faults,
            none,
        } = books;
        Tally {
            partitions,
            workers,
            refusals,
            faults,
            none,
        }
    }

    /// No part of any ledger.
    pub fn no_parts(&mut self) -> Parts<R>
        ensures partitions { (result.partitions.parts ≡ 0) × (result.partitions.amount ≡ 0) }
        ensures workers { (result.workers.parts ≡ 0) × (result.workers.amount ≡ 0) }
        ensures refusals { (result.refusals.parts ≡ 0) × (result.refusals.amount ≡ 0) }
        ensures faults { (result.faults.parts ≡ 0) × (result.faults.amount ≡ 0) }
    {
        Parts {
            partitions: self.none.partitions.empty(),
            workers: self.none.workers.empty(),
            refusals: self.none.refusals.empty(),
            faults: self.none.faults.empty(),
        }
    }

    /// Counts an event of a partition and of a worker.
    pub fn raise(
        &mut self,
        partition: &mut Share<OfPartitions<R>>,
        worker: &mut Share<OfWorkers<R>>,
    )
        requires partition { partition.old.parts ≡ 1 }
        requires worker { worker.old.parts ≡ 1 }
        ensures partition { partition.new.amount ≡ partition.old.amount + 1 }
        ensures worker { worker.new.amount ≡ worker.old.amount + 1 }
        ensures parts { (partition.new.parts ≡ 1) × (worker.new.parts ≡ 1) }
    {
        self.partitions.add(partition, 1);
        self.workers.add(worker, 1);
    }

    /// Counts a refused put of a partition and of a worker.
    pub fn refuse(&mut self, partition: &mut Share<OfRefusals<R>>, worker: &mut Share<OfFaults<R>>)
        requires partition { partition.old.parts ≡ 1 }
        requires worker { worker.old.parts ≡ 1 }
        ensures partition { partition.new.amount ≡ partition.old.amount + 1 }
        ensures worker { worker.new.amount ≡ worker.old.amount + 1 }
        ensures parts { (partition.new.parts ≡ 1) × (worker.new.parts ≡ 1) }
    {
        self.refusals.add(partition, 1);
        self.faults.add(worker, 1);
    }

    /// With all parts of all ledgers, the amounts are equal two by two.
    pub fn compare(&mut self, parts: &mut Parts<R>)
        requires partitions { parts.old.partitions.parts ≡ R.run.limits.partitions }
        requires workers { parts.old.workers.parts ≡ R.run.limits.workers }
        requires refusals { parts.old.refusals.parts ≡ R.run.limits.partitions }
        requires faults { parts.old.faults.parts ≡ R.run.limits.workers }
        ensures events { parts.old.partitions.amount ≡ parts.old.workers.amount }
        ensures refused { parts.old.refusals.amount ≡ parts.old.faults.amount }
    {
        self.partitions.audit(&mut parts.partitions);
        self.workers.audit(&mut parts.workers);
        self.refusals.audit(&mut parts.refusals);
        self.faults.audit(&mut parts.faults);
    }
}
