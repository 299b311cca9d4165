//! One table of what the workers of a run kept.

ghost use Rattle.std.specs.Prelude.{◌≡◌, false, IfOk, map, OnOk};
ghost use Rattle.pipe_aggs.specs.QueryTrees.{query_tree};
ghost use Rattle.pipe_plan.specs.Whole.{all_kept};
ghost use Rattle.pipe_groups.specs.Groups.{AreJoined};
ghost use Rattle.pipe_groups.specs.Holds.{Holds};
ghost use Rattle.pipe_groups.specs.Shape.{shape_of};
ghost use Rattle.pipe_keyed.specs.Tables.{HoldFewTogether, KeepsShape};
ghost use Rattle.pipe_global.specs.Partition.{IsRunnable, spilled_all};
ghost use Rattle.pipe_run.specs.Fed.{HaveKept};
ghost use Rattle.pipe_run.specs.Setting.{run_over};

use crate::begun::Begun;
use pipe_columns::DataChunk;
use pipe_spill::SpillStore;
use pipe_tables::AggHashTable;
use pipe_workers::PausedWorker;
use std::alloc::{AllocError, Global};
use std::snapshot::Snapshot;

/// The table of a worker that has closed.
fn map_of(rest: PausedWorker) -> AggHashTable
    ensures { result ≡ rest.table.table }
{
    let PausedWorker { table, .. } = rest;
    table.into_inner_map()
}

/// Combines the table of a worker that has closed into another.
fn combine_next(kept: &mut AggHashTable, rest: PausedWorker) -> Result<(), AllocError>
    requires shape { rest.table.table.shape ≡ kept.old.shape }
    requires few { HoldFewTogether kept.old rest.table.table }
    ensures joined { OnOk result (AreJoined kept.old.shape.prototypes kept.old.groups
        rest.table.table.groups kept.new.groups) }
    ensures shape { KeepsShape kept.old kept.new }
{
    let mut table = map_of(rest);
    let combined = kept.combine(&mut table);
    drop(table);
    combined
}

/// The tables of workers that have closed, combined into the first of them.
pub(crate) fn kept_table<S: SpillStore + Drop>(
    alloc: Global,
    begun: &Begun<'_, S>,
    chunks: &[Snapshot<DataChunk>],
    rests: Vec<PausedWorker>,
) -> Result<AggHashTable, AllocError>
    requires run { IsRunnable (run_over begun.now false (map (λ c. c.value) chunks.now)) }
    requires kept { HaveKept (run_over begun.now false (map (λ c. c.value) chunks.now))
        rests.items }
    ensures shape { IfOk result (λ t. t.shape ≡ shape_of (query_tree begun.now.query)) }
    ensures holds { IfOk result
        (λ t. Holds (shape_of (query_tree begun.now.query)).prototypes t.groups
        (spilled_all (query_tree begun.now.query)
        (all_kept (run_over begun.now false (map (λ c. c.value) chunks.now))))) }
{
    let mut waiting = rests.into_iter();
    let Some(first) = waiting.next() else {
        return AggHashTable::new(alloc, &begun.query, None);
    };
    let mut kept = map_of(first);
    'workers: loop {
        let rest = match waiting.next() {
            Some(rest) => rest,
            None => return Ok(kept),
        };
        match combine_next(&mut kept, rest) {
            Ok(()) => {}
            Err(AllocError) => {
                drop(kept);
                return Err(AllocError);
            }
        }
    }
}
