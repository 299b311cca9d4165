//! A run is resumed on closed partitions.

ghost use Rattle.std.specs.Prelude.{◌≡◌, ◌+◌, ◌<◌, ◌≤◌, IfErr, IfOk, OnOk, length, slice_index_or, sum, vec_capacity, vec_len};
ghost use Rattle.pipe_aggs.specs.QueryTrees.{query_tree};
ghost use Rattle.pipe_global.specs.Closed.{all_events};
ghost use Rattle.pipe_global.specs.Partition.{IsRunnable};
ghost use Rattle.pipe_global.specs.Resuming.{AreResumed, AreTakenOver, IsTakenOver, all_books, books_of, resumed_shares};

use crate::books::Books;
use crate::closed::ClosedPartition;
use crate::global_table::{GlobalTable, Room};
use crate::naming::{Blanks, Naming, OfFaults, OfPartitions, OfRefusals, OfWorkers};
use crate::open_table::room_for;
use crate::partition::Partition;
use crate::shares::Shares;
use crate::tally::{Parts, Tally};
use pipe_aggs::CheckedQuery;
use pipe_spill::SpillStore;
use std::alloc::{AllocError, Global};
use std::sync::Mutex;
use std::sync::ledger::{Book, Share};

/// How many events of each partition are a worker's. They are added to the worker's part.
fn books_of<S: SpillStore + Drop, R: Naming>(
    alloc: Global,
    book: &mut Book<OfWorkers<R>>,
    part: &mut Share<OfWorkers<R>>,
    partitions: &[ClosedPartition<S>],
    worker: usize,
) -> Result<Vec<u64>, AllocError>
    requires run { AreTakenOver R.run partitions.now }
    requires exists { worker < R.run.limits.workers }
    requires part { part.old.parts ≡ 1 }
    ensures events { IfOk result (λ v. v.items ≡ books_of partitions.now worker) }
    ensures parts { part.new.parts ≡ 1 }
    ensures amount { OnOk result
        (part.new.amount ≡ part.old.amount + sum (books_of partitions.now worker)) }
    ensures total { OnOk result
        (book.new.total ≡ book.old.total + sum (books_of partitions.now worker)) }
{
    let mut events = Vec::new(alloc);
    for partition in partitions {
        let count = partition.contents.book(worker);
        events.push(count)?;
        book.add(part, count);
    }
    Ok(events)
}

/// The shares of a worker that made events before.
fn shares_of<S: SpillStore + Drop, R: Naming>(
    alloc: Global,
    book: &mut Book<OfWorkers<R>>,
    event_part: Share<OfWorkers<R>>,
    fault_part: Share<OfFaults<R>>,
    partitions: &[ClosedPartition<S>],
    worker: usize,
    picks: usize,
) -> Result<Shares<R>, AllocError>
    requires run { AreTakenOver R.run partitions.now }
    requires count { length partitions.now ≡ R.run.limits.partitions }
    requires exists { worker < R.run.limits.workers }
    requires event_part { (event_part.parts ≡ 1) × (event_part.amount ≡ 0) }
    requires fault_part { (fault_part.parts ≡ 1) × (fault_part.amount ≡ 0) }
    ensures shares { IfOk result (λ s. s ≡ resumed_shares partitions.now worker picks) }
    ensures total { OnOk result
        (book.new.total ≡ book.old.total + sum (books_of partitions.now worker)) }
{
    let mut event_part = event_part;
    let events = books_of(alloc, book, &mut event_part, partitions, worker)?;
    let faults = vec![in alloc; 0u64; partitions.len()]?;
    Ok(Shares::resumed(worker, picks, events, faults, event_part, fault_part))
}

/// The shares of all workers. What they made is added to the ledger.
fn all_shares_of<S: SpillStore + Drop, R: Naming>(
    alloc: Global,
    book: &mut Book<OfWorkers<R>>,
    mut events: Share<OfWorkers<R>>,
    mut faults: Share<OfFaults<R>>,
    partitions: &[ClosedPartition<S>],
    picks: &[usize],
) -> Result<Vec<Shares<R>>, AllocError>
    requires run { AreTakenOver R.run partitions.now }
    requires count { length partitions.now ≡ R.run.limits.partitions }
    requires workers { length picks.now ≡ R.run.limits.workers }
    requires events { (events.parts ≡ length picks.now) × (events.amount ≡ 0) }
    requires faults { (faults.parts ≡ length picks.now) × (faults.amount ≡ 0) }
    ensures len { IfOk result (λ v. vec_len v ≡ length picks.now) }
    ensures shares { IfOk result (λ v. AreResumed partitions.now picks.now v.items) }
    ensures total { OnOk result
        (book.new.total ≡ book.old.total + all_books partitions.now (length picks.now)) }
{
    let mut shares = Vec::new(alloc);
    for &count in picks {
        let event_part = events.split_off(1, 0);
        let fault_part = faults.split_off(1, 0);
        let worker = shares.len();
        shares.push(shares_of(
            alloc, book, event_part, fault_part, partitions, worker, count,
        )?)?;
    }
    Ok(shares)
}

/// What the table of a resumed run takes memory for: room for all partitions once they are closed,
/// room for their locks, and the shares of all workers.
fn memory_for<S: SpillStore + Drop, R: Naming>(
    alloc: Global,
    book: &mut Book<OfWorkers<R>>,
    events: Share<OfWorkers<R>>,
    faults: Share<OfFaults<R>>,
    partitions: &[ClosedPartition<S>],
    picks: &[usize],
) -> Result<(Room<S, R>, Vec<Mutex<Partition<S, R>>>, Vec<Shares<R>>), AllocError>
    requires run { AreTakenOver R.run partitions.now }
    requires count { length partitions.now ≡ R.run.limits.partitions }
    requires workers { length picks.now ≡ R.run.limits.workers }
    requires events { (events.parts ≡ length picks.now) × (events.amount ≡ 0) }
    requires faults { (faults.parts ≡ length picks.now) × (faults.amount ≡ 0) }
    ensures none { IfOk result (λ r. vec_len r.1 ≡ 0) }
    ensures room { IfOk result (λ r. length partitions.now ≤ vec_capacity r.1) }
    ensures len { IfOk result (λ r. vec_len r.2 ≡ length picks.now) }
    ensures shares { IfOk result (λ r. AreResumed partitions.now picks.now r.2.items) }
    ensures total { OnOk result
        (book.new.total ≡ book.old.total + all_books partitions.now (length picks.now)) }
{
    let room = Room::new(alloc, partitions.len())?;
    let locks = room_for(alloc, partitions.len())?;
    let shares = all_shares_of(alloc, book, events, faults, partitions, picks)?;
    Ok((room, locks, shares))
}

/// The lock of a partition that is taken over. Its events are added to its part.
fn lock_of<S: SpillStore + Drop, R: Naming>(
    book: &mut Book<OfPartitions<R>>,
    mut event_part: Share<OfPartitions<R>>,
    fault_part: Share<OfRefusals<R>>,
    closed: ClosedPartition<S>,
    limit: usize,
) -> Mutex<Partition<S, R>>
    requires run { IsRunnable R.run }
    requires taken { IsTakenOver R.run closed.number closed }
    requires limit { limit ≡ R.run.limits.payload_limit }
    requires event_part { (event_part.parts ≡ 1) × (event_part.amount ≡ 0) }
    requires fault_part { (fault_part.parts ≡ 1) × (fault_part.amount ≡ 0) }
    ensures { book.new.total ≡ book.old.total + length closed.journal }
{
    let ClosedPartition { contents } = closed;
    book.add(&mut event_part, contents.events());
    Mutex::new(Partition {
        contents,
        limit,
        event_part,
        fault_part,
    })
}

/// The locks of all partitions. Their events are added to the ledger.
fn locks_of<S: SpillStore + Drop, R: Naming>(
    mut locks: Vec<Mutex<Partition<S, R>>>,
    book: &mut Book<OfPartitions<R>>,
    mut events: Share<OfPartitions<R>>,
    mut refusals: Share<OfRefusals<R>>,
    partitions: Vec<ClosedPartition<S>>,
    limit: usize,
) -> Vec<Mutex<Partition<S, R>>>
    requires run { IsRunnable R.run }
    requires taken { AreTakenOver R.run partitions.items }
    requires limit { limit ≡ R.run.limits.payload_limit }
    requires room { (vec_len locks ≡ 0) × (vec_len partitions ≤ vec_capacity locks) }
    requires events { (events.parts ≡ vec_len partitions) × (events.amount ≡ 0) }
    requires refusals { (refusals.parts ≡ vec_len partitions) × (refusals.amount ≡ 0) }
    ensures len { vec_len result ≡ vec_len partitions }
    ensures total { book.new.total ≡ book.old.total + all_events partitions.items }
{
    for partition in partitions {
        let event_part = events.split_off(1, 0);
        let fault_part = refusals.split_off(1, 0);
        locks.push_reserved(lock_of(book, event_part, fault_part, partition, limit));
    }
    locks
}

impl<S: SpillStore + Drop, R: Naming> GlobalTable<S, R> {
    /// The table of a run on partitions of a former one, whose journals it goes on with, and the shares
    /// of a worker for each number of picks. It is opened on four blank ledgers, which the run names.
    /// Memory is taken first: a refusal hands the partitions back.
    pub fn resume(
        alloc: Global,
        blanks: Blanks,
        query: &CheckedQuery<'_>,
        partitions: Vec<ClosedPartition<S>>,
        picks: &[usize],
        payload_limit: usize,
    ) -> Result<(GlobalTable<S, R>, Vec<Shares<R>>), (AllocError, Vec<ClosedPartition<S>>)>
        requires partitions { (blanks.partitions.name ≡ R.partition_ledger)
            × (blanks.partitions.parts ≡ R.run.limits.partitions) }
        requires workers { (blanks.workers.name ≡ R.worker_ledger)
            × (blanks.workers.parts ≡ R.run.limits.workers) }
        requires refusals { (blanks.refusals.name ≡ R.refusal_ledger)
            × (blanks.refusals.parts ≡ R.run.limits.partitions) }
        requires faults { (blanks.faults.name ≡ R.fault_ledger)
            × (blanks.faults.parts ≡ R.run.limits.workers) }
        requires run { IsRunnable R.run }
        requires query { R.run.query ≡ query_tree query.now }
        requires numbers { (R.run.limits.workers ≡ length picks.now)
            × (R.run.limits.payload_limit ≡ payload_limit) }
        requires count { vec_len partitions ≡ R.run.limits.partitions }
        requires taken { AreTakenOver R.run partitions.items }
        ensures len { IfOk result (λ r. vec_len r.1 ≡ R.run.limits.workers) }
        ensures shares { IfOk result (λ r. AreResumed partitions.items picks.now r.1.items) }
        ensures back { IfErr result (λ e. e.1.items ≡ partitions.items) }
    {
        let (mut books, parts) = Books::open(blanks);
        let Parts {
            partitions: events,
            workers: worker_events,
            refusals,
            faults,
        } = parts;
        let Ok((room, locks, shares)) = memory_for(
            alloc,
            &mut books.workers,
            worker_events,
            faults,
            &partitions,
            picks,
        ) else {
            return Err((AllocError, partitions));
        };
        let partitions = locks_of(
            locks,
            &mut books.partitions,
            events,
            refusals,
            partitions,
            payload_limit,
        );
        let table = GlobalTable {
            partitions,
            tally: Mutex::new(Tally::of(books)),
            room: Mutex::new(room),
        };
        Ok((table, shares))
    }
}
