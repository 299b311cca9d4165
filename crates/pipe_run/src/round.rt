//! One round of a run: its workers take their chunks, and the partitions come back.

ghost use Rattle.std.specs.Prelude.{◌≡◌, ◌<◌, ◌≤◌, ℕ, All, IfErr, IfOk, List, false, length, map, slice_index_or, true, vec_capacity, vec_len};
ghost use Rattle.std.specs.List.{list_all};
ghost use Rattle.pipe_aggs.specs.QueryTrees.{query_tree};
ghost use Rattle.pipe_workers.specs.Rounds.{IsRoundOf};
ghost use Rattle.pipe_workers.specs.Workers.{TakesTurns};
ghost use Rattle.pipe_run.specs.Stops.{error_of};
ghost use Rattle.pipe_run.specs.Fed.{AllStand, AreCounted, AreWholePartitions, HaveEnded, RoseAt};
ghost use Rattle.pipe_run.specs.Rounds.{AreWholeShares, has_gone_on, jobs_of, paused_of, shares_of, StandReady};
ghost use Rattle.pipe_run.specs.declared.round.RoundStop.TheVariants as stop;

use crate::error::PipeError;
use crate::failed::failed_one;
use pipe_aggs::CheckedQuery;
use pipe_global::{ClosedPartition, Gate, GlobalTable, Naming, Shares};
use pipe_plan::Limits;
use pipe_spill::SpillStore;
use pipe_workers::{GenericGroupby2, Job, PausedWorker, Round, work_round};
use std::alloc::{AllocError, Global};
use std::sync::Wait;
use std::thread::Threads;

/// Why a round was refused.
#[derive(Debug, Drop)]
pub(crate) enum RoundStop {
    Store { partition: usize },
    Memory,
}

impl RoundStop {
    /// The error of a run that stops so.
    pub(crate) fn error(self) -> PipeError
        ensures { result ≡ error_of self }
    {
        match self {
            RoundStop::Store { partition } => PipeError::Store { partition },
            RoundStop::Memory => PipeError::Memory,
        }
    }
}

/// What a round leaves.
#[derive(Drop)]
pub(crate) struct Ended<S: SpillStore + Drop> {
    pub(crate) closed: Vec<ClosedPartition<S>>,
    pub(crate) rested: Vec<PausedWorker>,
}

/// What workers leave, and whether all of them went on to the end.
#[derive(Drop)]
struct Gathered<R: Naming> {
    shares: Vec<Shares<R>>,
    rested: Vec<PausedWorker>,
    all: bool,
}

/// Room for what the workers leave.
#[derive(Drop)]
pub(crate) struct Rooms<R: Naming> {
    shares: Vec<Shares<R>>,
    rested: Vec<PausedWorker>,
}

/// How many picks each of some workers made.
fn picks_of(alloc: Global, rested: &[PausedWorker]) -> Result<Vec<usize>, AllocError>
    ensures { IfOk result (λ v. v.items ≡ map (λ x. x.picks) rested.now) }
{
    let mut picks = Vec::with_capacity(alloc, rested.len())?;
    for worker in 0..rested.len() {
        picks.push(rested[worker].picks)?;
    }
    Ok(picks)
}

/// Room for what the workers leave, and how many picks each made.
pub(crate) fn make_rooms<R: Naming>(
    alloc: Global,
    rested: &[PausedWorker],
) -> Result<(Rooms<R>, Vec<usize>), AllocError>
    ensures shares { IfOk result
        (λ r. (vec_len r.0.shares ≡ 0) × (length rested.now ≤ vec_capacity r.0.shares)) }
    ensures rested { IfOk result
        (λ r. (vec_len r.0.rested ≡ 0) × (length rested.now ≤ vec_capacity r.0.rested)) }
    ensures picks { IfOk result (λ r. r.1.items ≡ map (λ x. x.picks) rested.now) }
{
    let picks = picks_of(alloc, rested)?;
    let shares = Vec::with_capacity(alloc, rested.len())?;
    let rested = Vec::with_capacity(alloc, rested.len())?;
    Ok((Rooms { shares, rested }, picks))
}

/// Room for so many jobs.
fn job_room<'a, S: SpillStore + Drop, R: Naming, G: Gate>(
    alloc: Global,
    workers: usize,
) -> Result<Vec<Job<'a, S, R, G>>, AllocError>
    ensures none { IfOk result (λ v. vec_len v ≡ 0) }
    ensures room { IfOk result (λ v. workers ≤ vec_capacity v) }
{
    Vec::with_capacity(alloc, workers)
}

/// The workers of a run, each where it was paused.
fn jobs_of<'a, S: SpillStore + Drop, R: Naming, G: Gate>(
    alloc: Global,
    query: &'a CheckedQuery<'a>,
    limits: &Limits,
    global: &'a GlobalTable<S, R>,
    gate: &'a G,
    rested: Vec<PausedWorker>,
    shares: Vec<Shares<R>>,
    mut jobs: Vec<Job<'a, S, R, G>>,
) -> Vec<Job<'a, S, R, G>>
    requires run { TakesTurns R.run }
    requires query { R.run.query ≡ query_tree query.now }
    requires limits { R.run.limits ≡ limits.now }
    requires same { vec_len rested ≡ vec_len shares }
    requires room { (vec_len jobs ≡ 0) × (vec_len shares ≤ vec_capacity jobs) }
    ensures { result.items ≡ jobs_of rested.items shares.items }
{
    let mut waiting = rested.into_iter();
    for one in shares {
        let Some(paused) = waiting.next() else {
            unreachable!()
        };
        jobs.push_reserved(Job::new(GenericGroupby2::resume(
            alloc, query, limits, global, gate, paused, one,
        )));
    }
    jobs
}

/// The shares of the workers and what they keep, in order.
fn gather<'a, S: SpillStore + Drop, R: Naming, G: Gate>(
    jobs: Vec<Job<'a, S, R, G>>,
    rooms: Rooms<R>,
) -> Gathered<R>
    requires shares { (vec_len rooms.shares ≡ 0) × (vec_len jobs ≤ vec_capacity rooms.shares) }
    requires rested { (vec_len rooms.rested ≡ 0) × (vec_len jobs ≤ vec_capacity rooms.rested) }
    ensures shares { result.shares.items ≡ map shares_of jobs.entry.items }
    ensures rested { result.rested.items ≡ map paused_of jobs.entry.items }
    ensures all { result.all ≡ list_all has_gone_on jobs.entry.items }
    ensures events { All (λ s. length s.events ≡ R.run.limits.partitions) result.shares.items }
{
    let Rooms {
        mut shares,
        mut rested,
    } = rooms;
    let mut all = true;
    for job in jobs {
        let (worker, end) = job.into_parts();
        all &= end.is_none();
        let (paused, one) = worker.pause();
        // Called for what its clauses say.
        let _worker = one.worker();
        shares.push_reserved(one);
        rested.push_reserved(paused);
    }
    Gathered {
        shares,
        rested,
        all,
    }
}

/// All workers work, each where it was paused. A refusal hands the shares back.
fn work_all<
    'a,
    S: SpillStore + Drop + Send,
    R: Naming + Send + Sync,
    G: Gate + Sync,
    H: Threads + Wait + Sync,
>(
    rt: &H,
    alloc: Global,
    query: &'a CheckedQuery<'a>,
    limits: &Limits,
    gate: &'a G,
    round: &Round<'_>,
    table: &'a GlobalTable<S, R>,
    shares: Vec<Shares<R>>,
    rested: Vec<PausedWorker>,
    rooms: Rooms<R>,
) -> Result<Gathered<R>, (AllocError, Vec<Shares<R>>)>
    requires run { TakesTurns R.run }
    requires query { R.run.query ≡ query_tree query.now }
    requires limits { R.run.limits ≡ limits.now }
    requires round { IsRoundOf R.run round.now }
    requires shares { vec_len shares ≡ R.run.limits.workers }
    requires rested { vec_len rested ≡ R.run.limits.workers }
    requires shares_room { (vec_len rooms.shares ≡ 0)
        × (R.run.limits.workers ≤ vec_capacity rooms.shares) }
    requires rested_room { (vec_len rooms.rested ≡ 0)
        × (R.run.limits.workers ≤ vec_capacity rooms.rested) }
    requires ready { StandReady R.run round.now.first rested.items shares.items }
    ensures len { IfOk result (λ g. vec_len g.shares ≡ R.run.limits.workers) }
    ensures whole { IfOk result
        (λ g. g.all ≡ true → AreWholeShares R.run g.shares.items) }
    ensures ended { IfOk result (λ g. g.all ≡ true → HaveEnded R.run g.rested.items) }
    ensures back { IfErr result (λ e. vec_len e.1 ≡ R.run.limits.workers) }
{
    let Ok(jobs) = job_room::<S, R, G>(alloc, shares.len()) else {
        return Err((AllocError, shares));
    };
    let jobs = jobs_of(alloc, query, limits, table, gate, rested, shares, jobs);
    let jobs = work_round(rt, jobs, round);
    Ok(gather(jobs, rooms))
}

/// Why a round stopped that wasn't worked to its end: a store's fault comes before want of memory.
fn stop_of<S: SpillStore + Drop>(closed: &[ClosedPartition<S>]) -> RoundStop
    ensures there { (p : ℕ) → result ≡ stop.Store p → p < length closed.now }
    ensures failed { (p : ℕ) (d : _) → result ≡ stop.Store p
        → (slice_index_or closed.now p d).failed ≡ true }
    ensures least { (p k : ℕ) (d : _) → result ≡ stop.Store p → k < p
        → (slice_index_or closed.now k d).failed ≡ false }
    ensures memory { (p : ℕ) (d : _) → result ≡ stop.Memory → p < length closed.now
        → (slice_index_or closed.now p d).failed ≡ false }
{
    match failed_one(closed) {
        Some(partition) => RoundStop::Store { partition },
        None => RoundStop::Memory,
    }
}

/// All workers work, and the partitions come back.
pub(crate) fn drive<
    S: SpillStore + Drop + Send,
    R: Naming + Send + Sync,
    G: Gate + Sync,
    H: Threads + Wait + Sync,
>(
    rt: &H,
    alloc: Global,
    query: &CheckedQuery<'_>,
    limits: &Limits,
    gate: &G,
    round: &Round<'_>,
    table: GlobalTable<S, R>,
    shares: Vec<Shares<R>>,
    rested: Vec<PausedWorker>,
    rooms: Rooms<R>,
) -> Result<Ended<S>, (RoundStop, Vec<ClosedPartition<S>>)>
    requires run { TakesTurns R.run }
    requires query { R.run.query ≡ query_tree query.now }
    requires limits { R.run.limits ≡ limits.now }
    requires round { IsRoundOf R.run round.now }
    requires shares { vec_len shares ≡ R.run.limits.workers }
    requires rested { vec_len rested ≡ R.run.limits.workers }
    requires shares_room { (vec_len rooms.shares ≡ 0)
        × (R.run.limits.workers ≤ vec_capacity rooms.shares) }
    requires rested_room { (vec_len rooms.rested ≡ 0)
        × (R.run.limits.workers ≤ vec_capacity rooms.rested) }
    requires ready { StandReady R.run round.now.first rested.items shares.items }
    ensures back { IfErr result (λ e. AllStand R.run e.1.items) }
    ensures store { IfErr result (λ e. (p : ℕ) → e.0 ≡ stop.Store p → RoseAt R.run p e.1.items) }
    ensures memory { IfErr result (λ e. e.0 ≡ stop.Memory → AreCounted R.run e.1.items) }
    ensures whole { IfOk result (λ e. AreWholePartitions R.run e.closed.items) }
    ensures counted { IfOk result (λ e. AreCounted R.run e.closed.items) }
    ensures ended { IfOk result (λ e. HaveEnded R.run e.rested.items) }
{
    let worked = work_all(
        rt, alloc, query, limits, gate, round, &table, shares, rested, rooms,
    );
    let Gathered {
        shares,
        rested,
        all,
    } = match worked {
        Ok(gathered) => gathered,
        Err((AllocError, shares)) => {
            let back = table.into_partitions(rt, shares);
            let stop = stop_of(back.as_slice());
            return Err((stop, back));
        }
    };
    let closed = table.into_partitions(rt, shares);
    if let Some(partition) = failed_one(&closed) {
        return Err((RoundStop::Store { partition }, closed));
    }
    if !all {
        return Err((RoundStop::Memory, closed));
    }
    Ok(Ended { closed, rested })
}
