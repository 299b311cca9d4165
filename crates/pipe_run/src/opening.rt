//! What a run holds before its first chunk.

ghost use Rattle.std.specs.Prelude.{◌≡◌, ◌<◌, ◌^◌, [], All, IfErr, IfOk, map, true, vec_len};
ghost use Rattle.pipe_aggs.specs.QueryTrees.{query_tree};
ghost use Rattle.pipe_groups.specs.Shape.{shape_of};
ghost use Rattle.pipe_plan.specs.Run.{AreLimits, is_generic};
ghost use Rattle.pipe_plan.specs.Stores.{stores_seen};
ghost use Rattle.pipe_run.specs.Fed.{AreCounted, AreWholePartitions, IsUnused};
ghost use Rattle.pipe_run.specs.Setting.{run_over};

use crate::begun::Begun;
use pipe_aggs::CheckedQuery;
use pipe_global::{Blanks, ClosedPartition, GlobalTable, Naming};
use pipe_local::WorkerTable;
use pipe_plan::Limits;
use pipe_spill::SpillStore;
use pipe_workers::PausedWorker;
use std::alloc::{AllocError, Global};
use std::marker::Brand;
use std::snapshot::Snapshot;
use std::sync::Wait;
use std::sync::ledger::Blank;

/// A worker that took no chunk.
fn unused_worker(
    alloc: Global,
    query: &CheckedQuery<'_>,
    limits: &Limits,
) -> Result<PausedWorker, AllocError>
    requires limits { AreLimits limits.now }
    requires generic { is_generic limits.now.sink ≡ true }
    ensures { IfOk result (λ w. IsUnused limits.now (shape_of (query_tree query.now)) w) }
{
    let made = WorkerTable::new(
        alloc,
        query,
        limits.partitions,
        limits.spill_size,
        limits.buffer_size,
    );
    let table = match made {
        Ok(table) => table,
        Err(AllocError) => return Err(AllocError),
    };
    Ok(PausedWorker {
        table,
        turns: 0,
        picks: 0,
    })
}

/// Workers that took no chunk, as many as there are.
pub(crate) fn unused_workers(
    alloc: Global,
    query: &CheckedQuery<'_>,
    limits: &Limits,
) -> Result<Vec<PausedWorker>, AllocError>
    requires limits { AreLimits limits.now }
    requires generic { is_generic limits.now.sink ≡ true }
    ensures len { IfOk result (λ v. vec_len v ≡ limits.now.workers) }
    ensures unused { IfOk result
        (λ v. All (IsUnused limits.now (shape_of (query_tree query.now))) v.items) }
{
    let mut workers = Vec::new(alloc);
    for _worker in 0..limits.workers {
        workers.push(unused_worker(alloc, query, limits)?)?;
    }
    Ok(workers)
}

/// Marks of stores, as they are.
pub(crate) fn marks_of<S: SpillStore + Drop>(
    alloc: Global,
    stores: &[S],
) -> Result<Vec<Snapshot<S>>, AllocError>
    ensures { IfOk result (λ v. map (λ m. m.value) v.items ≡ stores.now) }
{
    let mut marks = Vec::new(alloc);
    for store in stores {
        marks.push(Snapshot::of(store))?;
    }
    Ok(marks)
}

/// The partitions of the run that `R` names, before any event.
fn opened_named<S: SpillStore + Drop, R: Naming, H: Wait>(
    rt: &H,
    alloc: Global,
    blanks: Blanks,
    begun: &Begun<'_, S>,
    stores: Vec<S>,
) -> Result<Vec<ClosedPartition<S>>, (AllocError, Vec<S>)>
    requires run { R.run ≡ run_over begun.now true [] }
    requires partitions { (blanks.partitions.name ≡ R.partition_ledger)
        × (blanks.partitions.parts ≡ begun.now.limits.partitions) }
    requires workers { (blanks.workers.name ≡ R.worker_ledger)
        × (blanks.workers.parts ≡ begun.now.limits.workers) }
    requires refusals { (blanks.refusals.name ≡ R.refusal_ledger)
        × (blanks.refusals.parts ≡ begun.now.limits.partitions) }
    requires faults { (blanks.faults.name ≡ R.fault_ledger)
        × (blanks.faults.parts ≡ begun.now.limits.workers) }
    requires limits { AreLimits begun.now.limits }
    requires generic { is_generic begun.now.limits.sink ≡ true }
    requires count { vec_len stores ≡ begun.now.limits.partitions }
    requires stores { begun.now.stores ≡ stores_seen S.held S.told S.faults S.sure S.path stores.items }
    requires former { All (λ s. s.held < 2 ^ 63) begun.now.stores }
    ensures whole { IfOk result (λ v. AreWholePartitions R.run v.items) }
    ensures counted { IfOk result (λ v. AreCounted R.run v.items) }
    ensures back { IfErr result (λ e. e.1.items ≡ stores.items) }
{
    // Called for what its clauses say.
    let _schema = begun.query.output_schema();
    let workers = begun.limits.workers;
    let limit = begun.limits.payload_limit;
    match GlobalTable::<S, R>::new(alloc, blanks, &begun.query, stores, workers, limit) {
        Ok((table, shares)) => Ok(table.into_partitions(rt, shares)),
        Err(refusal) => Err(refusal),
    }
}

/// The partitions of a run before any event, one for each of its stores, which a refusal hands back.
pub(crate) fn opened<S: SpillStore + Drop, H: Wait>(
    rt: &H,
    alloc: Global,
    begun: &Begun<'_, S>,
    stores: Vec<S>,
) -> Result<Vec<ClosedPartition<S>>, (AllocError, Vec<S>)>
    requires limits { AreLimits begun.now.limits }
    requires generic { is_generic begun.now.limits.sink ≡ true }
    requires count { vec_len stores ≡ begun.now.limits.partitions }
    requires stores { begun.now.stores ≡ stores_seen S.held S.told S.faults S.sure S.path stores.items }
    requires former { All (λ s. s.held < 2 ^ 63) begun.now.stores }
    ensures whole { IfOk result (λ v. AreWholePartitions (run_over begun.now true []) v.items) }
    ensures counted { IfOk result (λ v. AreCounted (run_over begun.now true []) v.items) }
    ensures back { IfErr result (λ e. e.1.items ≡ stores.items) }
{
    let blanks = Blanks {
        partitions: Blank::new(begun.limits.partitions as u64),
        workers: Blank::new(begun.limits.workers as u64),
        refusals: Blank::new(begun.limits.partitions as u64),
        faults: Blank::new(begun.limits.workers as u64),
    };
    let named = opened_named::<S, Brand, H>(rt, alloc, blanks, begun, stores);
    match named {
        Ok(closed) => Ok(closed),
        Err(refusal) => Err(refusal),
    }
}
