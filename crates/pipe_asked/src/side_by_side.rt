//! The groups of closed partitions that are finished side by side.

ghost use Rattle.std.specs.Prelude.{◌≡◌, ◌<◌, All, IfErr, IfOk, List, None, OnOk, false, length, true};
ghost use Rattle.pipe_aggs.specs.QueryTrees.{query_tree};
ghost use Rattle.pipe_model.specs.Output.{output_schema};
ghost use Rattle.pipe_groups.specs.declared.placed_groups.PlacedGroups.{PlacedGroups};
ghost use Rattle.pipe_global.specs.declared.batch_error.BatchError.TheVariants as batch_error;
ghost use Rattle.pipe_asked.specs.Left.{AreSamePartitions, CountOn};
ghost use Rattle.pipe_asked.specs.Given.{IsSource};
ghost use Rattle.pipe_asked.specs.Sources.{IsGiveCause, IsPlacedFrame, unasked};
ghost use Rattle.pipe_asked.specs.Stacking.{all_frames, IsPlacedWhole};
ghost use Rattle.pipe_asked.specs.Tasks.{AreKept, AreKeptOf};
ghost use Rattle.pipe_asked.specs.Wholes.{IsAnswerWhole};

use crate::by_place::frame_by_place;
use crate::cut::cut_by_partition;
use crate::form::Form;
use crate::kept::{AsGroups, AsWhole, Keep};
use crate::tasks::{FinishRoom, finish_each, finish_room, taken_apart, tasks_of};
use pipe_aggs::CheckedQuery;
use pipe_global::{BatchError, ClosedPartition};
use pipe_groups::PlacedGroups;
use pipe_spill::SpillStore;
use pipe_tables::AggHashTable;
use std::alloc::{AllocError, Global};
use std::thread::Threads;

/// What is kept of the groups of each partition with those of a local table whose keys lie there, in the
/// order of keys. Each partition is asked in one of so many threads, and the first that refuses is told of.
/// All partitions come back, in order.
fn finish_all<K: Keep + Sync, S: SpillStore + Drop + Send, H: Threads + Sync>(
    rt: &H,
    alloc: Global,
    threads: usize,
    query: &CheckedQuery<'_>,
    keep: &K,
    closed: Vec<ClosedPartition<S>>,
    local: AggHashTable,
) -> (Result<Vec<K::Kept>, BatchError>, Vec<ClosedPartition<S>>)
    requires threads { 0 < threads }
    requires some { 0 < length closed.items }
    requires source { IsSource (unasked query.now closed.items local None) }
    requires takes { K.takes keep.now (output_schema (query_tree query.now)) }
    ensures parts { IfOk result.0 (λ v.
        AreKept (K.is keep.now) (unasked query.now closed.items local None) v.items) }
    ensures kept { AreSamePartitions closed.items result.1.items }
    ensures calm { OnOk result.0 (CountOn closed.items result.1.items) }
    ensures cause { IfErr result.0 (λ e. IsGiveCause (unasked query.now closed.items local None)
        (unasked query.now result.1.items local None) e) }
{
    let count = closed.len();
    let Ok(locals) = cut_by_partition(alloc, query, count, local) else {
        return (Err(BatchError::Memory), closed);
    };
    let Ok(room) = finish_room(alloc, count) else {
        return (Err(BatchError::Memory), closed);
    };
    let FinishRoom { tasks, back, kept } = room;
    let mut tasks = tasks_of(closed, locals, tasks);
    finish_each(rt, alloc, threads, keep, tasks.as_mut_slice());
    taken_apart(tasks, back, kept)
}

/// The wholes of parts, those of each below those of the one before.
fn stacked_parts<F: Form>(
    alloc: Global,
    form: &F,
    query: &CheckedQuery<'_>,
    wholes: Vec<F::Whole>,
) -> Result<F::Whole, BatchError>
    requires takes { F.takes form.now (output_schema (query_tree query.now)) }
    requires kept { (gs : List PlacedGroups)
        × AreKeptOf (λ w g. F.is form.now w g.frame) (query_tree query.now) wholes.items gs }
    ensures whole { IfOk result (λ w. (gs : List PlacedGroups)
        → AreKeptOf (λ w g. F.is form.now w g.frame) (query_tree query.now) wholes.items gs
        → F.is form.now w (all_frames (output_schema (query_tree query.now)) gs)) }
    ensures cause { IfErr result (λ e. e ≡ batch_error.Memory) }
{
    let Ok(mut whole) = form.none(alloc, query.output_schema()) else {
        return Err(BatchError::Memory);
    };
    for more in wholes {
        match form.put_below(&mut whole, more) {
            Ok(()) => {}
            Err(AllocError) => return Err(BatchError::Memory),
        }
    }
    Ok(whole)
}

/// The whole of the groups of all parts in the order of their first rows.
fn whole_by_place<F: Form>(
    alloc: Global,
    form: &F,
    query: &CheckedQuery<'_>,
    placed: Vec<PlacedGroups>,
) -> Result<F::Whole, BatchError>
    requires takes { F.takes form.now (output_schema (query_tree query.now)) }
    requires frames { All (IsPlacedFrame (query_tree query.now)) placed.items }
    ensures whole { IfOk result
        (IsPlacedWhole (F.is form.now) (query_tree query.now) placed.items) }
    ensures cause { IfErr result (λ e. e ≡ batch_error.Memory) }
{
    let Ok(frame) = frame_by_place(alloc, query, placed.as_slice(), None) else {
        return Err(BatchError::Memory);
    };
    drop(placed);
    match form.of_frame(alloc, frame) {
        Ok(whole) => Ok(whole),
        Err(AllocError) => Err(BatchError::Memory),
    }
}

/// The same as `answer_side_by_side`, where the query keeps the order of rows.
fn answer_in_order<F: Form, S: SpillStore + Drop + Send, H: Threads + Sync>(
    rt: &H,
    alloc: Global,
    threads: usize,
    form: &F,
    query: &CheckedQuery<'_>,
    closed: Vec<ClosedPartition<S>>,
    local: AggHashTable,
) -> (Result<F::Whole, BatchError>, Vec<ClosedPartition<S>>)
    requires threads { 0 < threads }
    requires some { 0 < length closed.items }
    requires source { IsSource (unasked query.now closed.items local None) }
    requires takes { F.takes form.now (output_schema (query_tree query.now)) }
    requires slice { (query_tree query.now).slice ≡ None }
    requires order { (query_tree query.now).keeps_order ≡ true }
    ensures whole { IfOk result.0
        (IsAnswerWhole (F.is form.now) (unasked query.now closed.items local None)) }
    ensures kept { AreSamePartitions closed.items result.1.items }
    ensures calm { OnOk result.0 (CountOn closed.items result.1.items) }
    ensures cause { IfErr result.0 (λ e. IsGiveCause (unasked query.now closed.items local None)
        (unasked query.now result.1.items local None) e) }
{
    let (given, closed) = finish_all(rt, alloc, threads, query, &AsGroups, closed, local);
    match given {
        Ok(placed) => (whole_by_place(alloc, form, query, placed), closed),
        Err(refusal) => (Err(refusal), closed),
    }
}

/// The same, where it doesn't: each thread makes the whole of its partition.
fn answer_by_parts<F: Form + Sync, S: SpillStore + Drop + Send, H: Threads + Sync>(
    rt: &H,
    alloc: Global,
    threads: usize,
    form: &F,
    query: &CheckedQuery<'_>,
    closed: Vec<ClosedPartition<S>>,
    local: AggHashTable,
) -> (Result<F::Whole, BatchError>, Vec<ClosedPartition<S>>)
    requires threads { 0 < threads }
    requires some { 0 < length closed.items }
    requires source { IsSource (unasked query.now closed.items local None) }
    requires takes { F.takes form.now (output_schema (query_tree query.now)) }
    requires slice { (query_tree query.now).slice ≡ None }
    requires order { (query_tree query.now).keeps_order ≡ false }
    ensures whole { IfOk result.0
        (IsAnswerWhole (F.is form.now) (unasked query.now closed.items local None)) }
    ensures kept { AreSamePartitions closed.items result.1.items }
    ensures calm { OnOk result.0 (CountOn closed.items result.1.items) }
    ensures cause { IfErr result.0 (λ e. IsGiveCause (unasked query.now closed.items local None)
        (unasked query.now result.1.items local None) e) }
{
    let schema = query.output_schema();
    let keep = AsWhole { form, schema };
    let (given, closed) = finish_all(rt, alloc, threads, query, &keep, closed, local);
    match given {
        Ok(wholes) => (stacked_parts(alloc, form, query, wholes), closed),
        Err(refusal) => (Err(refusal), closed),
    }
}

/// What the groups of all partitions with those of a local table become, in the order of a query without a
/// slice. Each partition is asked in one of so many threads, and the first that refuses is told of. All
/// partitions come back, in order.
pub(crate) fn answer_side_by_side<F: Form + Sync, S: SpillStore + Drop + Send, H: Threads + Sync>(
    rt: &H,
    alloc: Global,
    threads: usize,
    form: &F,
    query: &CheckedQuery<'_>,
    closed: Vec<ClosedPartition<S>>,
    local: AggHashTable,
) -> (Result<F::Whole, BatchError>, Vec<ClosedPartition<S>>)
    requires threads { 0 < threads }
    requires some { 0 < length closed.items }
    requires source { IsSource (unasked query.now closed.items local None) }
    requires takes { F.takes form.now (output_schema (query_tree query.now)) }
    requires slice { (query_tree query.now).slice ≡ None }
    ensures whole { IfOk result.0
        (IsAnswerWhole (F.is form.now) (unasked query.now closed.items local None)) }
    ensures kept { AreSamePartitions closed.items result.1.items }
    ensures calm { OnOk result.0 (CountOn closed.items result.1.items) }
    ensures cause { IfErr result.0 (λ e. IsGiveCause (unasked query.now closed.items local None)
        (unasked query.now result.1.items local None) e) }
{
    if query.query().maintain_order {
        answer_in_order(rt, alloc, threads, form, query, closed, local)
    } else {
        answer_by_parts(rt, alloc, threads, form, query, closed, local)
    }
}
