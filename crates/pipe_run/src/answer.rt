//! The answer of a run that has ended.

ghost use Rattle.std.specs.Prelude.{◌<◌, ◌^◌, IfErr, IfOk, OnOk, ℕ, false, length, map, slice_index_or};
ghost use Rattle.pipe_aggs.specs.QueryTrees.{query_tree};
ghost use Rattle.pipe_model.specs.Output.{output_schema};
ghost use Rattle.pipe_model.specs.Rows.{AreChunksOf};
ghost use Rattle.pipe_spill.specs.Store.{HasHeld};
ghost use Rattle.pipe_global.specs.Partition.{IsRunnable};
ghost use Rattle.pipe_asked.specs.Left.{AreSamePartitions, CountOn};
ghost use Rattle.pipe_run.specs.Ending.{IsAnswerCause};
ghost use Rattle.pipe_run.specs.Fed.{AreWholePartitions, HaveKept};
ghost use Rattle.pipe_run.specs.Setting.{run_over};
ghost use Rattle.pipe_run.specs.Wholes.{IsRunWhole};

use crate::begun::Begun;
use crate::kept_table::kept_table;
use pipe_asked::{Form, answer_of_parts};
use pipe_columns::DataChunk;
use pipe_global::{BatchError, ClosedPartition};
use pipe_spill::SpillStore;
use pipe_workers::PausedWorker;
use std::alloc::Global;
use std::snapshot::Snapshot;
use std::thread::Threads;

/// The look at partitions that shows that their stores tell no more and no fewer frames than they hold.
fn recall_told<S: SpillStore + Drop>(closed: &[ClosedPartition<S>])
    ensures { (p : ℕ) (d : _) → p < length closed.now → HasHeld
        (slice_index_or closed.now p d).store.told (slice_index_or closed.now p d).store.held }
{
    for partition in 0..closed.len() {
        // Called for what its clauses say.
        let _journal = closed[partition].journal();
    }
}

/// The groups of a run that has ended, as a form makes them, from its closed partitions and what its
/// workers kept. The partitions come back, in order.
pub(crate) fn answer_of_run<F: Form + Sync, S: SpillStore + Drop + Send, H: Threads + Sync>(
    rt: &H,
    alloc: Global,
    form: &F,
    begun: &Begun<'_, S>,
    chunks: &[Snapshot<DataChunk>],
    closed: Vec<ClosedPartition<S>>,
    rests: Vec<PausedWorker>,
) -> (Result<F::Whole, BatchError>, Vec<ClosedPartition<S>>)
    requires takes { F.takes form.now (output_schema (query_tree begun.now.query)) }
    requires run { IsRunnable (run_over begun.now false (map (λ c. c.value) chunks.now)) }
    requires few { begun.now.limits.partitions < 2 ^ 32 }
    requires chunks { AreChunksOf (query_tree begun.now.query) (map (λ c. c.value) chunks.now) }
    requires whole { AreWholePartitions (run_over begun.now false (map (λ c. c.value) chunks.now))
        closed.items }
    requires kept { HaveKept (run_over begun.now false (map (λ c. c.value) chunks.now))
        rests.items }
    ensures answer { IfOk result.0 (IsRunWhole (F.is form.now)
        (run_over begun.now false (map (λ c. c.value) chunks.now))) }
    ensures kept { AreSamePartitions closed.items result.1.items }
    ensures calm { OnOk result.0 (CountOn closed.items result.1.items) }
    ensures cause { IfErr result.0 (λ e. IsAnswerCause
        (run_over begun.now false (map (λ c. c.value) chunks.now)) closed.items result.1.items e) }
{
    // Called for what its clauses say.
    let _query = begun.query.query();
    recall_told(closed.as_slice());
    let Ok(local) = kept_table(alloc, begun, chunks, rests) else {
        return (Err(BatchError::Memory), closed);
    };
    let workers = begun.limits.workers;
    answer_of_parts(rt, alloc, form, &begun.query, workers, closed, local)
}
