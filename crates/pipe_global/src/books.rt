//! The books of the four ledgers of a run.

ghost use Rattle.std.specs.Prelude.{◌≡◌};

use crate::naming::{Blanks, Naming, OfFaults, OfPartitions, OfRefusals, OfWorkers};
use crate::tally::Parts;
use std::sync::ledger::Book;

/// The books of the four ledgers of a run, whatever they count, and no part of any.
#[derive(Drop)]
pub struct Books<R: Naming> {
    pub(crate) partitions: Book<OfPartitions<R>>,
    pub(crate) workers: Book<OfWorkers<R>>,
    pub(crate) refusals: Book<OfRefusals<R>>,
    pub(crate) faults: Book<OfFaults<R>>,
    pub(crate) none: Parts<R>,
}

impl<R: Naming> Books<R> {
    /// Opens the ledgers: nothing is counted, and all parts are there.
    pub(crate) fn open(blanks: Blanks) -> (Books<R>, Parts<R>)
        requires partitions { (blanks.partitions.name ≡ R.partition_ledger)
            × (blanks.partitions.parts ≡ R.run.limits.partitions) }
        requires workers { (blanks.workers.name ≡ R.worker_ledger)
            × (blanks.workers.parts ≡ R.run.limits.workers) }
        requires refusals { (blanks.refusals.name ≡ R.refusal_ledger)
            × (blanks.refusals.parts ≡ R.run.limits.partitions) }
        requires faults { (blanks.faults.name ≡ R.fault_ledger)
            × (blanks.faults.parts ≡ R.run.limits.workers) }
        ensures events { (result.0.partitions.total ≡ 0) × (result.0.workers.total ≡ 0) }
        ensures refused { (result.0.refusals.total ≡ 0) × (result.0.faults.total ≡ 0) }
        ensures partitions { (result.1.partitions.parts ≡ R.run.limits.partitions)
            × (result.1.partitions.amount ≡ 0) }
        ensures workers { (result.1.workers.parts ≡ R.run.limits.workers)
            × (result.1.workers.amount ≡ 0) }
        ensures refusals { (result.1.refusals.parts ≡ R.run.limits.partitions)
            × (result.1.refusals.amount ≡ 0) }
        ensures faults { (result.1.faults.parts ≡ R.run.limits.workers)
            × (result.1.faults.amount ≡ 0) }
    {
        let (partitions, mut all_partitions) = blanks.partitions.open::<OfPartitions<R>>();
        let (workers, mut all_workers) = blanks.workers.open::<OfWorkers<R>>();
        let (refusals, mut all_refusals) = blanks.refusals.open::<OfRefusals<R>>();
        let (faults, mut all_faults) = blanks.faults.open::<OfFaults<R>>();
        let none = Parts {
            partitions: all_partitions.empty(),
            workers: all_workers.empty(),
            refusals: all_refusals.empty(),
            faults: all_faults.empty(),
        };
        let books = Books {
            partitions,
            workers,
            refusals,
            faults,
            none,
        };
        let parts = Parts {
            partitions: all_partitions,
            workers: all_workers,
            refusals: all_refusals,
            faults: all_faults,
        };
        (books, parts)
    }
}
