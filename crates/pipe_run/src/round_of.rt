//! One round of a run, which the call picks.

ghost use Rattle.std.specs.Prelude.{◌≡◌, ◌++◌, ℕ, IfErr, IfOk, map, true};
ghost use Rattle.pipe_aggs.specs.QueryTrees.{query_tree};
ghost use Rattle.pipe_model.specs.Rows.{AreChunksOf};
ghost use Rattle.pipe_plan.specs.Run.{is_generic};
ghost use Rattle.pipe_asked.specs.Left.{CountOn, RoseFrom};
ghost use Rattle.pipe_run.specs.Fed.{AllStand, AreCounted, AreWholePartitions, HaveEnded, IsFed, RoseAt};
ghost use Rattle.pipe_run.specs.Setting.{counted_from, run_over};
ghost use Rattle.pipe_run.specs.declared.round.RoundStop.TheVariants as stop;

use crate::begun::Begun;
use crate::round::{Ended, RoundStop, drive, make_rooms};
use pipe_columns::DataChunk;
use pipe_global::{Blanks, ClosedPartition, Gate, GlobalTable, Naming};
use pipe_spill::SpillStore;
use pipe_workers::{PausedWorker, Round};
use std::alloc::{AllocError, Global};
use std::marker::Brand;
use std::snapshot::Snapshot;
use std::sync::Wait;
use std::sync::ledger::Blank;
use std::thread::Threads;

/// One round of the run that `R` names: its stores' faults are counted from what they are now.
fn round_named<
    S: SpillStore + Drop + Send,
    R: Naming + Send + Sync,
    G: Gate + Sync,
    H: Threads + Wait + Sync,
>(
    rt: &H,
    alloc: Global,
    blanks: Blanks,
    gate: &G,
    begun: &Begun<'_, S>,
    is_open: bool,
    taken: &[Snapshot<DataChunk>],
    chunks: &[DataChunk],
    closed: Vec<ClosedPartition<S>>,
    rested: Vec<PausedWorker>,
) -> Result<Ended<S>, (RoundStop, Vec<ClosedPartition<S>>)>
    requires run { R.run ≡ counted_from
        (run_over begun.now is_open (map (λ s. s.value) taken.now ++ chunks.now))
        (map (λ c. c.store.faults) closed.items) }
    requires partitions { (blanks.partitions.name ≡ R.partition_ledger)
        × (blanks.partitions.parts ≡ begun.now.limits.partitions) }
    requires workers { (blanks.workers.name ≡ R.worker_ledger)
        × (blanks.workers.parts ≡ begun.now.limits.workers) }
    requires refusals { (blanks.refusals.name ≡ R.refusal_ledger)
        × (blanks.refusals.parts ≡ begun.now.limits.partitions) }
    requires faults { (blanks.faults.name ≡ R.fault_ledger)
        × (blanks.faults.parts ≡ begun.now.limits.workers) }
    requires generic { is_generic begun.now.limits.sink ≡ true }
    requires fed { IsFed (run_over begun.now true (map (λ s. s.value) taken.now))
        closed.items rested.items }
    requires chunks { AreChunksOf (query_tree begun.now.query)
        (map (λ s. s.value) taken.now ++ chunks.now) }
    ensures back { IfErr result (λ e. AllStand R.run e.1.items) }
    ensures store { IfErr result (λ e. (p : ℕ) → e.0 ≡ stop.Store p → RoseAt R.run p e.1.items) }
    ensures memory { IfErr result (λ e. e.0 ≡ stop.Memory → AreCounted R.run e.1.items) }
    ensures whole { IfOk result (λ e. AreWholePartitions R.run e.closed.items) }
    ensures counted { IfOk result (λ e. AreCounted R.run e.closed.items) }
    ensures ended { IfOk result (λ e. HaveEnded R.run e.rested.items) }
{
    // Called for what its clauses say.
    let _query = begun.query.query();
    let actions = begun.actions();
    let rules = begun.rules();
    let round = Round::new(taken.len(), chunks, actions, rules, is_open);
    let Ok((rooms, picks)) = make_rooms::<R>(alloc, &rested) else {
        return Err((RoundStop::Memory, closed));
    };
    let limit = begun.limits.payload_limit;
    match GlobalTable::<S, R>::resume(alloc, blanks, &begun.query, closed, &picks, limit) {
        Ok((table, shares)) => drive(
            rt,
            alloc,
            &begun.query,
            &begun.limits,
            gate,
            &round,
            table,
            shares,
            rested,
            rooms,
        ),
        Err((AllocError, closed)) => Err((RoundStop::Memory, closed)),
    }
}

/// Feeds chunks to the workers of a run, behind those that were taken; where no more may follow, they
/// close. A refusal hands the partitions back.
pub(crate) fn round<S: SpillStore + Drop + Send, G: Gate + Sync, H: Threads + Wait + Sync>(
    rt: &H,
    alloc: Global,
    gate: &G,
    begun: &Begun<'_, S>,
    is_open: bool,
    taken: &[Snapshot<DataChunk>],
    chunks: &[DataChunk],
    closed: Vec<ClosedPartition<S>>,
    rested: Vec<PausedWorker>,
) -> Result<Ended<S>, (RoundStop, Vec<ClosedPartition<S>>)>
    requires generic { is_generic begun.now.limits.sink ≡ true }
    requires fed { IsFed (run_over begun.now true (map (λ s. s.value) taken.now))
        closed.items rested.items }
    requires chunks { AreChunksOf (query_tree begun.now.query)
        (map (λ s. s.value) taken.now ++ chunks.now) }
    ensures back { IfErr result (λ e. AllStand
        (run_over begun.now is_open (map (λ s. s.value) taken.now ++ chunks.now)) e.1.items) }
    ensures store { IfErr result (λ e. (p : ℕ) → e.0 ≡ stop.Store p
        → RoseFrom closed.items p e.1.items) }
    ensures memory { IfErr result (λ e. e.0 ≡ stop.Memory → CountOn closed.items e.1.items) }
    ensures whole { IfOk result (λ e. AreWholePartitions
        (run_over begun.now is_open (map (λ s. s.value) taken.now ++ chunks.now)) e.closed.items) }
    ensures counted { IfOk result (λ e. CountOn closed.items e.closed.items) }
    ensures ended { IfOk result (λ e. HaveEnded
        (run_over begun.now is_open (map (λ s. s.value) taken.now ++ chunks.now)) e.rested.items) }
{
    let blanks = Blanks {
        partitions: Blank::new(begun.limits.partitions as u64),
        workers: Blank::new(begun.limits.workers as u64),
        refusals: Blank::new(begun.limits.partitions as u64),
        faults: Blank::new(begun.limits.workers as u64),
    };
    let named = round_named::<S, Brand, G, H>(
        rt, alloc, blanks, gate, begun, is_open, taken, chunks, closed, rested,
    );
    match named {
        Ok(ended) => Ok(ended),
        Err(refusal) => Err(refusal),
    }
}
