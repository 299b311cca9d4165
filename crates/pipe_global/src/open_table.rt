//! A global table is opened on stores.

ghost use Rattle.std.specs.Prelude.{◌≡◌, All, IfErr, IfOk, vec_len, vec_capacity, ◌≤◌};
ghost use Rattle.pipe_aggs.specs.QueryTrees.{query_tree};
ghost use Rattle.pipe_plan.specs.Stores.{stores_seen};
ghost use Rattle.pipe_global.specs.Opening.{AreStoresFrom, AreUnused, IsEmptyPlace};
ghost use Rattle.pipe_global.specs.Partition.{IsRunnable};

use crate::global_table::{GlobalTable, Room};
use crate::naming::{Blanks, Naming, OfFaults, OfPartitions, OfRefusals, OfWorkers};
use crate::partition::Partition;
use crate::place::Place;
use crate::shares::Shares;
use crate::tally::{Parts, Tally};
use pipe_aggs::CheckedQuery;
use pipe_spill::SpillStore;
use pipe_tables::AggHashTable;
use std::alloc::{AllocError, Global};
use std::sync::Mutex;
use std::sync::ledger::Share;

/// A place for each of so many partitions.
fn places_of(
    alloc: Global,
    query: &CheckedQuery<'_>,
    partitions: usize,
    workers: usize,
) -> Result<Vec<Place>, AllocError>
    ensures len { IfOk result (λ v. vec_len v ≡ partitions) }
    ensures places { IfOk result (λ v. All (IsEmptyPlace (query_tree query.now) workers) v.items) }
{
    let mut places = Vec::with_capacity(alloc, partitions)?;
    for _number in 0..partitions {
        let book = vec![in alloc; 0u64; workers]?;
        let table = AggHashTable::new(alloc, query, None)?;
        places.push_reserved(Place { table, book });
    }
    Ok(places)
}

/// The shares of so many workers, none of which has made an event.
fn shares_of<R: Naming>(
    alloc: Global,
    workers: usize,
    partitions: usize,
    mut events: Share<OfWorkers<R>>,
    mut faults: Share<OfFaults<R>>,
) -> Result<Vec<Shares<R>>, AllocError>
    requires workers { workers ≡ R.run.limits.workers }
    requires partitions { partitions ≡ R.run.limits.partitions }
    requires events { (events.parts ≡ workers) × (events.amount ≡ 0) }
    requires faults { (faults.parts ≡ workers) × (faults.amount ≡ 0) }
    ensures len { IfOk result (λ v. vec_len v ≡ workers) }
    ensures unused { IfOk result (λ v. AreUnused partitions v.items) }
{
    let mut shares = Vec::with_capacity(alloc, workers)?;
    for worker in 0..workers {
        let event_part = events.split_off(1, 0);
        let fault_part = faults.split_off(1, 0);
        let one = Shares::new(alloc, worker, partitions, event_part, fault_part)?;
        shares.push_reserved(one);
    }
    Ok(shares)
}

/// Room for the locks of so many partitions.
pub(crate) fn room_for<S: SpillStore + Drop, R: Naming>(
    alloc: Global,
    partitions: usize,
) -> Result<Vec<Mutex<Partition<S, R>>>, AllocError>
    ensures none { IfOk result (λ v. vec_len v ≡ 0) }
    ensures room { IfOk result (λ v. partitions ≤ vec_capacity v) }
{
    Vec::with_capacity(alloc, partitions)
}

/// The lock of each partition, with its place, its store and its parts of the ledgers.
fn locks_of<S: SpillStore + Drop, R: Naming>(
    alloc: Global,
    mut locks: Vec<Mutex<Partition<S, R>>>,
    mut places: Vec<Place>,
    stores: Vec<S>,
    payload_limit: usize,
    mut events: Share<OfPartitions<R>>,
    mut refusals: Share<OfRefusals<R>>,
) -> Vec<Mutex<Partition<S, R>>>
    requires run { IsRunnable R.run }
    requires limit { payload_limit ≡ R.run.limits.payload_limit }
    requires room { (vec_len locks ≡ 0) × (vec_len stores ≤ vec_capacity locks) }
    requires count { vec_len stores ≡ R.run.limits.partitions }
    requires places { vec_len places ≡ vec_len stores }
    requires each { All (IsEmptyPlace R.run.query R.run.limits.workers) places.items }
    requires stores { AreStoresFrom R.run 0
        (stores_seen S.held S.told S.faults S.sure S.path stores.items) }
    requires events { (events.parts ≡ vec_len stores) × (events.amount ≡ 0) }
    requires refusals { (refusals.parts ≡ vec_len stores) × (refusals.amount ≡ 0) }
    ensures { vec_len result ≡ vec_len stores }
{
    let partitions = stores.len();
    for store in stores {
        let Some(place) = places.pop() else {
            unreachable!()
        };
        let number = locks.len();
        let event_part = events.split_off(1, 0);
        let fault_part = refusals.split_off(1, 0);
        locks.push_reserved(Mutex::new(Partition::new(
            alloc,
            number,
            partitions,
            place,
            store,
            payload_limit,
            event_part,
            fault_part,
        )));
    }
    locks
}

impl<S: SpillStore + Drop, R: Naming> GlobalTable<S, R> {
    /// The table of a run before its first event, and the shares of its workers. It is opened on four
    /// blank ledgers, which the run names. A refusal hands the stores back.
    pub fn new(
        alloc: Global,
        blanks: Blanks,
        query: &CheckedQuery<'_>,
        stores: Vec<S>,
        workers: usize,
        payload_limit: usize,
    ) -> Result<(GlobalTable<S, R>, Vec<Shares<R>>), (AllocError, Vec<S>)>
        requires partitions { (blanks.partitions.name ≡ R.partition_ledger)
            × (blanks.partitions.parts ≡ R.run.limits.partitions) }
        requires workers { (blanks.workers.name ≡ R.worker_ledger)
            × (blanks.workers.parts ≡ R.run.limits.workers) }
        requires refusals { (blanks.refusals.name ≡ R.refusal_ledger)
            × (blanks.refusals.parts ≡ R.run.limits.partitions) }
        requires faults { (blanks.faults.name ≡ R.fault_ledger)
            × (blanks.faults.parts ≡ R.run.limits.workers) }
        requires run { IsRunnable R.run }
        requires query { R.run.query ≡ query_tree query.now }
        requires numbers { (R.run.limits.workers ≡ workers)
            × (R.run.limits.payload_limit ≡ payload_limit) }
        requires count { vec_len stores ≡ R.run.limits.partitions }
        requires stores { R.run.stores ≡ stores_seen S.held S.told S.faults S.sure S.path stores.items }
        ensures len { IfOk result (λ r. vec_len r.1 ≡ R.run.limits.workers) }
        ensures unused { IfOk result (λ r. AreUnused R.run.limits.partitions r.1.items) }
        ensures back { IfErr result (λ e. e.1.items ≡ stores.items) }
    {
        let partitions = stores.len();
        let Ok(room) = Room::new(alloc, partitions) else {
            return Err((AllocError, stores));
        };
        let Ok(locks) = room_for(alloc, partitions) else {
            return Err((AllocError, stores));
        };
        let Ok(places) = places_of(alloc, query, partitions, workers) else {
            return Err((AllocError, stores));
        };
        let (tally, parts) = Tally::open(blanks);
        let Parts {
            partitions: events,
            workers: worker_events,
            refusals,
            faults,
        } = parts;
        let Ok(shares) = shares_of(alloc, workers, partitions, worker_events, faults) else {
            return Err((AllocError, stores));
        };
        let partitions = locks_of(
            alloc,
            locks,
            places,
            stores,
            payload_limit,
            events,
            refusals,
        );
        let table = GlobalTable {
            partitions,
            tally: Mutex::new(tally),
            room: Mutex::new(room),
        };
        Ok((table, shares))
    }
}
