//! What a sink gives.

ghost use Rattle.std.specs.Prelude.{◌≡◌, ◌<◌, ◌≤◌, ◌^◌, [], false, IfOk, map, OnErr, OnOk, true, ℕ};
ghost use Rattle.pipe_aggs.specs.CheckedQuery.{IsSound};
ghost use Rattle.pipe_aggs.specs.QueryTrees.{query_tree};
ghost use Rattle.pipe_keyed.specs.Tables.{HasGroups};
ghost use Rattle.pipe_model.specs.Answer.{answer_of};
ghost use Rattle.pipe_model.specs.Groupable.{IsGroupable};
ghost use Rattle.pipe_sinks.specs.RunLayout.{AreTakenChunks, HoldsChunks};
ghost use Rattle.pipe_sinks.specs.Runs.{IsAnswer, placed_rows, purpose_of, with_taken};

use crate::key_table::KeyTable;
use crate::sink_run::SinkRun;
use pipe_aggs::CheckedQuery;
use pipe_columns::{DataChunk, DataFrame};
use std::alloc::AllocError;
use std::snapshot::Snapshot;

/// The answer of a query that keeps order, out of the table of its chunks, which is then empty.
fn by_row(
    table: &mut KeyTable,
    query: &CheckedQuery<'_>,
    taken: &[Snapshot<DataChunk>],
) -> Result<DataFrame, AllocError>
    requires sound { IsSound query.now }
    requires groupable { IsGroupable (query_tree query.now) }
    requires kept { (query_tree query.now).keeps_order ≡ true }
    requires chunks { AreTakenChunks (query_tree query.now) (map (λ s. s.value) taken.now) }
    requires holds { HoldsChunks (query_tree query.now) (map (λ s. s.value) taken.now) table.old }
    ensures answer { IfOk result (λ f. (partitions : ℕ) → f ≡ answer_of
        (placed_rows (query_tree query.now) (map (λ s. s.value) taken.now))
        (query_tree query.now) partitions) }
    ensures emptied { OnOk result (HoldsChunks (query_tree query.now) [] table.new) }
    ensures err { OnErr result (HasGroups table.old table.new table.old.groups) }
{
    let frame = table.finalize_by_row(query.slice())?;
    Ok(frame)
}

/// The answer of a query that keeps no order, out of the table of its chunks, which is then empty:
/// partition by partition, and by key in each.
fn by_partition(
    table: &mut KeyTable,
    query: &CheckedQuery<'_>,
    partitions: usize,
    taken: &[Snapshot<DataChunk>],
) -> Result<DataFrame, AllocError>
    requires sound { IsSound query.now }
    requires groupable { IsGroupable (query_tree query.now) }
    requires unordered { (query_tree query.now).keeps_order ≡ false }
    requires some { 0 < partitions }
    requires few { partitions ≤ 2 ^ 32 }
    requires chunks { AreTakenChunks (query_tree query.now) (map (λ s. s.value) taken.now) }
    requires holds { HoldsChunks (query_tree query.now) (map (λ s. s.value) taken.now) table.old }
    ensures answer { IfOk result (λ f. f ≡ answer_of
        (placed_rows (query_tree query.now) (map (λ s. s.value) taken.now))
        (query_tree query.now) partitions) }
    ensures emptied { OnOk result (HoldsChunks (query_tree query.now) [] table.new) }
    ensures err { OnErr result (HasGroups table.old table.new table.old.groups) }
{
    let frame = table.finalize_by_partition(partitions, query.slice())?;
    Ok(frame)
}

/// The answer of a query, out of the table of its chunks, which is then empty. All memory is had before
/// a group is taken.
fn answer(
    table: &mut KeyTable,
    query: &CheckedQuery<'_>,
    partitions: usize,
    taken: &[Snapshot<DataChunk>],
) -> Result<DataFrame, AllocError>
    requires some { 0 < partitions }
    requires few { partitions ≤ 2 ^ 32 }
    requires chunks { AreTakenChunks (query_tree query.now) (map (λ s. s.value) taken.now) }
    requires holds { HoldsChunks (query_tree query.now) (map (λ s. s.value) taken.now) table.old }
    ensures answer { IfOk result (λ f. f ≡ answer_of
        (placed_rows (query_tree query.now) (map (λ s. s.value) taken.now))
        (query_tree query.now) partitions) }
    ensures emptied { OnOk result (HoldsChunks (query_tree query.now) [] table.new) }
    ensures err { OnErr result (HasGroups table.old table.new table.old.groups) }
{
    let keeps_order = query.query().maintain_order;
    if keeps_order {
        let frame = by_row(table, query, taken)?;
        return Ok(frame);
    }
    let frame = by_partition(table, query, partitions, taken)?;
    Ok(frame)
}

impl<'a> SinkRun<'a> {
    /// Gives the answer over the chunks taken, of which none is left. Where memory is wanting all are
    /// still there, and more may be taken.
    pub fn finish(&mut self) -> Result<DataFrame, AllocError>
        ensures answer { IfOk result (λ f. IsAnswer (purpose_of self.old) self.old.taken f) }
        ensures emptied { OnOk result (self.new ≡ with_taken [] self.old) }
        ensures err { OnErr result (self.new ≡ self.old) }
    {
        let frame = answer(&mut self.table, self.query, self.partitions, &self.taken)?;
        self.taken.clear();
        Ok(frame)
    }
}
