//! The groups of closed partitions and of a local table, as one whole.

ghost use Rattle.std.specs.Prelude.{◌≡◌, ◌<◌, IfErr, IfOk, List, OnOk, false, length};
ghost use Rattle.pipe_aggs.specs.QueryTrees.{query_tree};
ghost use Rattle.pipe_columns.specs.Frame.{AllHaveHeight, fields_of, FrameData, stacked};
ghost use Rattle.pipe_model.specs.Output.{output_schema};
ghost use Rattle.pipe_asked.specs.Left.{AreSamePartitions, CountOn};
ghost use Rattle.pipe_asked.specs.Given.{IsSource};
ghost use Rattle.pipe_asked.specs.Sources.{IsGiveCause, KeepsAsked, unasked};
ghost use Rattle.pipe_asked.specs.Stacking.{IsOfFields, IsWholeOfChunks};
ghost use Rattle.pipe_asked.specs.Wholes.{IsAnswerWhole};

use crate::asked::AskedPartitions;
use crate::form::Form;
use crate::group_source::GroupBySource;
use crate::in_turn::joined_wholes;
use crate::side_by_side::answer_side_by_side;
use pipe_aggs::CheckedQuery;
use pipe_columns::DataFrame;
use pipe_global::{BatchError, ClosedPartition};
use pipe_spill::SpillStore;
use pipe_tables::AggHashTable;
use std::alloc::{AllocError, Global};
use std::thread::Threads;

/// Puts the rows of a frame below a whole. The frame is gone then.
fn put_frame_below<F: Form>(
    alloc: Global,
    form: &F,
    whole: &mut F::Whole,
    frame: DataFrame,
) -> Result<(), AllocError>
    requires takes { F.takes form.now (fields_of frame.columns) }
    requires fields { IsOfFields (F.is form.now) (fields_of frame.columns) whole.old }
    ensures below { OnOk result ((f : FrameData) → fields_of frame.columns ≡ fields_of f.columns
        → AllHaveHeight f.height f.columns → F.is form.now whole.old f
        → F.is form.now whole.new (stacked f frame)) }
    ensures tall { AllHaveHeight frame.height frame.columns }
{
    let _columns = frame.columns();
    let more = form.of_frame(alloc, frame)?;
    form.put_below(whole, more)
}

/// The whole of the chunks that are left in a source, below one another.
fn joined_chunks<F: Form, S: SpillStore + Drop>(
    alloc: Global,
    form: &F,
    query: &CheckedQuery<'_>,
    source: &mut GroupBySource<'_, S>,
) -> Result<F::Whole, BatchError>
    requires query { source.old.asked.query ≡ query.now }
    requires takes { F.takes form.now (output_schema (query_tree query.now)) }
    ensures whole { IfOk result (IsWholeOfChunks (F.is form.now) source.old) }
    ensures kept { KeepsAsked source.old.asked source.new.asked }
    ensures calm { OnOk result (CountOn source.old.asked.partitions source.new.asked.partitions) }
    ensures cause { IfErr result (λ e. IsGiveCause source.old.asked source.new.asked e) }
{
    let Ok(mut whole) = form.none(alloc, query.output_schema()) else {
        return Err(BatchError::Memory);
    };
    'chunks: loop {
        let given = match source.next_chunk() {
            Ok(given) => given,
            Err(error) => return Err(error),
        };
        let chunk = match given {
            Some(chunk) => chunk,
            None => return Ok(whole),
        };
        match put_frame_below(alloc, form, &mut whole, chunk.frame) {
            Ok(()) => {}
            Err(AllocError) => return Err(BatchError::Memory),
        }
    }
}

/// The whole of the chunk of closed partitions and of a local table. The partitions come back, in order.
fn answer_of_chunks<F: Form, S: SpillStore + Drop>(
    alloc: Global,
    form: &F,
    query: &CheckedQuery<'_>,
    closed: Vec<ClosedPartition<S>>,
    local: AggHashTable,
    slice: Option<(usize, usize)>,
) -> (Result<F::Whole, BatchError>, Vec<ClosedPartition<S>>)
    requires source { IsSource (unasked query.now closed.items local slice) }
    requires slice { slice ≡ (query_tree query.now).slice }
    requires some { 0 < length closed.items }
    requires takes { F.takes form.now (output_schema (query_tree query.now)) }
    ensures whole { IfOk result.0
        (IsAnswerWhole (F.is form.now) (unasked query.now closed.items local slice)) }
    ensures kept { AreSamePartitions closed.items result.1.items }
    ensures calm { OnOk result.0 (CountOn closed.items result.1.items) }
    ensures cause { IfErr result.0 (λ e. IsGiveCause (unasked query.now closed.items local slice)
        (unasked query.now result.1.items local slice) e) }
{
    let mut source = GroupBySource::new(alloc, query, closed, local, slice);
    match joined_chunks(alloc, form, query, &mut source) {
        Ok(whole) => (Ok(whole), source.into_parts()),
        Err(error) => (Err(error), source.into_parts()),
    }
}

/// The wholes of closed partitions and of a local table, below one another, where no order is kept: each
/// is made before the next partition is asked. The partitions come back, in order.
fn answer_of_wholes<F: Form, S: SpillStore + Drop>(
    alloc: Global,
    form: &F,
    query: &CheckedQuery<'_>,
    closed: Vec<ClosedPartition<S>>,
    local: AggHashTable,
    slice: Option<(usize, usize)>,
) -> (Result<F::Whole, BatchError>, Vec<ClosedPartition<S>>)
    requires source { IsSource (unasked query.now closed.items local slice) }
    requires slice { slice ≡ (query_tree query.now).slice }
    requires some { 0 < length closed.items }
    requires takes { F.takes form.now (output_schema (query_tree query.now)) }
    requires order { (query_tree query.now).keeps_order ≡ false }
    ensures whole { IfOk result.0
        (IsAnswerWhole (F.is form.now) (unasked query.now closed.items local slice)) }
    ensures kept { AreSamePartitions closed.items result.1.items }
    ensures calm { OnOk result.0 (CountOn closed.items result.1.items) }
    ensures cause { IfErr result.0 (λ e. IsGiveCause (unasked query.now closed.items local slice)
        (unasked query.now result.1.items local slice) e) }
{
    let mut asked = AskedPartitions::new(alloc, query, closed, local, slice);
    match joined_wholes(alloc, form, query, &mut asked) {
        Ok(whole) => (Ok(whole), asked.into_parts()),
        Err(error) => (Err(error), asked.into_parts()),
    }
}

/// What closed partitions and a local table give, partition by partition, or all in the order of rows. The
/// partitions come back, in order.
fn answer_in_turn<F: Form, S: SpillStore + Drop>(
    alloc: Global,
    form: &F,
    query: &CheckedQuery<'_>,
    closed: Vec<ClosedPartition<S>>,
    local: AggHashTable,
    slice: Option<(usize, usize)>,
) -> (Result<F::Whole, BatchError>, Vec<ClosedPartition<S>>)
    requires source { IsSource (unasked query.now closed.items local slice) }
    requires slice { slice ≡ (query_tree query.now).slice }
    requires some { 0 < length closed.items }
    requires takes { F.takes form.now (output_schema (query_tree query.now)) }
    ensures whole { IfOk result.0
        (IsAnswerWhole (F.is form.now) (unasked query.now closed.items local slice)) }
    ensures kept { AreSamePartitions closed.items result.1.items }
    ensures calm { OnOk result.0 (CountOn closed.items result.1.items) }
    ensures cause { IfErr result.0 (λ e. IsGiveCause (unasked query.now closed.items local slice)
        (unasked query.now result.1.items local slice) e) }
{
    if query.query().maintain_order {
        answer_of_chunks(alloc, form, query, closed, local, slice)
    } else {
        answer_of_wholes(alloc, form, query, closed, local, slice)
    }
}

/// What the groups of closed partitions and of a local table become. Where several workers ran, the
/// partitions are finished in as many threads; a slice may leave partitions unasked, so under one they are
/// asked in turn.
pub fn answer_of_parts<F: Form + Sync, S: SpillStore + Drop + Send, H: Threads + Sync>(
    rt: &H,
    alloc: Global,
    form: &F,
    query: &CheckedQuery<'_>,
    workers: usize,
    closed: Vec<ClosedPartition<S>>,
    local: AggHashTable,
) -> (Result<F::Whole, BatchError>, Vec<ClosedPartition<S>>)
    requires source { IsSource (unasked query.now closed.items local (query_tree query.now).slice) }
    requires some { 0 < length closed.items }
    requires takes { F.takes form.now (output_schema (query_tree query.now)) }
    ensures whole { IfOk result.0 (IsAnswerWhole (F.is form.now)
        (unasked query.now closed.items local (query_tree query.now).slice)) }
    ensures kept { AreSamePartitions closed.items result.1.items }
    ensures calm { OnOk result.0 (CountOn closed.items result.1.items) }
    ensures cause { IfErr result.0 (λ e. IsGiveCause
        (unasked query.now closed.items local (query_tree query.now).slice)
        (unasked query.now result.1.items local (query_tree query.now).slice) e) }
{
    match query.slice() {
        None if workers > 1 => answer_side_by_side(rt, alloc, workers, form, query, closed, local),
        slice => answer_in_turn(alloc, form, query, closed, local, slice),
    }
}
