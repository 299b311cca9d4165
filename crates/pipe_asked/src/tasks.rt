//! Closed partitions that are finished side by side, each with the local groups of its keys.

ghost use Rattle.std.specs.Prelude.{◌≡◌, ◌<◌, ◌≤◌, ℕ, IfErr, IfOk, Ok, Err, length, map, slice_index_or, vec_capacity, vec_len};
ghost use Rattle.pipe_asked.specs.Tasks.{CanBeKept, IsFirstRefusal, WasFinished};

use crate::kept::Keep;
use pipe_global::{BatchError, ClosedPartition};
use pipe_spill::SpillStore;
use pipe_tables::AggHashTable;
use pipe_threads::for_each_beside;
use std::alloc::{AllocError, Global};
use std::thread::Threads;

/// A closed partition, the local groups of its keys, and what is kept of what it gave. Before it is finished
/// that is a want of memory.
#[derive(Drop)]
pub(crate) struct FinishTask<S: SpillStore + Drop, T: Drop> {
    partition: ClosedPartition<S>,
    local: AggHashTable,
    given: Result<T, BatchError>,
}

impl<S: SpillStore + Drop, T: Drop> FinishTask<S, T> {
    /// The partition, and what is kept of what it gave.
    fn into_parts(self) -> (ClosedPartition<S>, Result<T, BatchError>)
        ensures partition { result.0 ≡ self.partition }
        ensures given { result.1 ≡ self.given }
    {
        let FinishTask {
            partition,
            local,
            given,
        } = self;
        drop(local);
        (partition, given)
    }
}

/// Room for the tasks of partitions, and for what comes back of them.
#[derive(Drop)]
pub(crate) struct FinishRoom<S: SpillStore + Drop, T: Drop> {
    pub(crate) tasks: Vec<FinishTask<S, T>>,
    pub(crate) back: Vec<ClosedPartition<S>>,
    pub(crate) kept: Vec<T>,
}

/// Room for so many partitions.
pub(crate) fn finish_room<S: SpillStore + Drop, T: Drop>(
    alloc: Global,
    count: usize,
) -> Result<FinishRoom<S, T>, AllocError>
    ensures tasks { IfOk result (λ r. (vec_len r.tasks ≡ 0) × (count ≤ vec_capacity r.tasks)) }
    ensures back { IfOk result (λ r. (vec_len r.back ≡ 0) × (count ≤ vec_capacity r.back)) }
    ensures kept { IfOk result (λ r. (vec_len r.kept ≡ 0) × (count ≤ vec_capacity r.kept)) }
{
    let tasks = Vec::with_capacity(alloc, count)?;
    let back = Vec::with_capacity(alloc, count)?;
    let kept = Vec::with_capacity(alloc, count)?;
    Ok(FinishRoom { tasks, back, kept })
}

/// Partitions with the local groups of each, in order. There is room for them.
pub(crate) fn tasks_of<S: SpillStore + Drop, T: Drop>(
    closed: Vec<ClosedPartition<S>>,
    locals: Vec<AggHashTable>,
    mut tasks: Vec<FinishTask<S, T>>,
) -> Vec<FinishTask<S, T>>
    requires room { (vec_len tasks ≡ 0) × (vec_len closed ≤ vec_capacity tasks) }
    requires count { vec_len locals ≡ vec_len closed }
    ensures partitions { map (λ t. t.partition) result.items ≡ closed.items }
    ensures locals { map (λ t. t.local) result.items ≡ locals.items }
{
    let mut parts = locals.into_iter();
    for partition in closed {
        let local = parts.next().unwrap();
        tasks.push_reserved(FinishTask {
            partition,
            local,
            given: Err(BatchError::Memory),
        });
    }
    tasks
}

/// Finishes a partition.
fn finish_one<S: SpillStore + Drop, K: Keep>(
    alloc: Global,
    keep: &K,
    task: &mut FinishTask<S, K::Kept>,
)
    requires { CanBeKept (K.takes keep.now) task.old.partition task.old.local }
    ensures { WasFinished (K.is keep.now) task.old.partition task.old.local task.new.partition
        task.new.given }
{
    let FinishTask {
        partition,
        local,
        given,
    } = task;
    *given = keep.finish(alloc, partition, local);
}

/// Finishes each partition, in a thread beside others where one can be had.
pub(crate) fn finish_each<K: Keep + Sync, S: SpillStore + Drop + Send, H: Threads + Sync>(
    rt: &H,
    alloc: Global,
    threads: usize,
    keep: &K,
    tasks: &mut [FinishTask<S, K::Kept>],
)
    requires threads { 0 < threads }
    requires can { (p : ℕ) (d : _) → p < length tasks.old
        → CanBeKept (K.takes keep.now) (slice_index_or tasks.old p d).partition
        (slice_index_or tasks.old p d).local }
    ensures count { length tasks.new ≡ length tasks.old }
    ensures each { (p : ℕ) (d : _) → p < length tasks.old
        → WasFinished (K.is keep.now) (slice_index_or tasks.old p d).partition
        (slice_index_or tasks.old p d).local (slice_index_or tasks.new p d).partition
        (slice_index_or tasks.new p d).given }
{
    for_each_beside(
        rt,
        tasks,
        threads,
        &|_, task|
            requires { CanBeKept (K.takes keep.now) task.old.partition task.old.local }
        { finish_one(alloc, keep, task) },
    );
}

/// What is kept of what all partitions gave, or why the first that refused gave nothing; and the partitions,
/// in order. There is room for both.
pub(crate) fn taken_apart<S: SpillStore + Drop, T: Drop>(
    tasks: Vec<FinishTask<S, T>>,
    mut closed: Vec<ClosedPartition<S>>,
    mut kept: Vec<T>,
) -> (Result<Vec<T>, BatchError>, Vec<ClosedPartition<S>>)
    requires closed { (vec_len closed ≡ 0) × (vec_len tasks ≤ vec_capacity closed) }
    requires kept { (vec_len kept ≡ 0) × (vec_len tasks ≤ vec_capacity kept) }
    ensures partitions { result.1.items ≡ map (λ t. t.partition) tasks.items }
    ensures kept { IfOk result.0 (λ v. map Ok v.items ≡ map (λ t. t.given) tasks.items) }
    ensures refused { IfErr result.0 (λ e. IsFirstRefusal (map (λ t. t.given) tasks.items) e) }
{
    let mut refusal = None;
    for task in tasks {
        let (partition, given) = task.into_parts();
        closed.push_reserved(partition);
        match given {
            Ok(part) => kept.push_reserved(part),
            Err(error) => refusal = refusal.or(Some(error)),
        }
    }
    match refusal {
        None => (Ok(kept), closed),
        Some(error) => (Err(error), closed),
    }
}
