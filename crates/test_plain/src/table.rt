//! The groups of chunks that come one by one.

ghost use Rattle.std.specs.Prelude.{◌≡◌, ◌+◌, ◌^◌, ◌-◌, ◌<◌, ◌∷◌, ◌++◌, IfOk, OnOk, length, map, []};
ghost use Rattle.pipe_columns.specs.Frame.{FitsSchema, HoldsTypes};
ghost use Rattle.pipe_aggs.specs.HashAggs.{prototypes};
ghost use Rattle.pipe_aggs.specs.QueryTrees.{query_tree};
ghost use Rattle.pipe_model.specs.Rows.{chunk_rows, rows, total_height};
ghost use Rattle.pipe_model.specs.Answer.{answer, groups};
ghost use Rattle.test_plain.specs.Running.{group_seen, KeysAscend, keyed_line, starts, TableHolds, with_rows};

use crate::frame::{output_frame, output_rows};
use crate::groups::{Group, add_row};
use crate::guesses::Guesses;
use crate::order::{by_first_row, by_partition, sliced};
use pipe_aggs::CheckedQuery;
use pipe_columns::{DataChunk, DataFrame};
use pipe_inputs::ChunkRows;
use std::alloc::{AllocError, Global};
use std::marker::Model;
use std::snapshot::Snapshot;

/// Puts the rows of a chunk into a table.
fn add_chunk(
    alloc: Global,
    table: &mut Vec<Group>,
    guesses: &mut Guesses,
    query: &CheckedQuery<'_>,
    index: u32,
    chunk: &DataChunk,
) -> Result<(), AllocError>
    requires fits { FitsSchema query.now.schema chunk.now.frame }
    requires height { chunk.now.frame.height < 2 ^ 32 }
    requires held { TableHolds (2 ^ 32 - 1 - chunk.now.frame.height)
        (prototypes (query_tree query.now)) (map group_seen table.old.items) }
    requires ascending { KeysAscend (map group_seen table.old.items) }
    ensures rows { OnOk result (map group_seen table.new.items
        ≡ with_rows (starts (prototypes (query_tree query.now))) (map group_seen table.old.items)
        (chunk_rows (query_tree query.now) index chunk.now.frame)) }
    ensures typed { HoldsTypes chunk.now.frame }
{
    let height = chunk.frame.height();
    let rows = ChunkRows::new(alloc, query, index, chunk)?;
    let prototypes = query.prototypes();
    for row in 0..height {
        add_row(alloc, table, guesses, prototypes, &rows, row)?;
    }
    Ok(())
}

/// The groups of the rows of chunks that come one by one. Contracts see it as the query and the
/// chunks taken, though of each only a mark without bytes is kept.
#[derive(Drop)]
pub struct PlainGroups<'a> {
    query: &'a CheckedQuery<'a>,
    groups: Vec<Group>,
    guesses: Guesses,
    taken: Vec<Snapshot<DataChunk>>,
}

impl<'a> Model for PlainGroups<'a> {
    ghost use Rattle.std.specs.Prelude.{map};
    ghost use Rattle.pipe_aggs.specs.QueryTrees.{query_tree};
    ghost use Rattle.test_plain.specs.Running.{group_seen};
    ghost use Rattle.test_plain.specs.Taken.{HasTaken, PlainRun};

    ghost Value = { PlainRun };

    ghost view = { λ a. record { query = a.query.now; taken = map (λ s. s.value) a.taken.items } };

    ghost invariant = { λ a. HasTaken (query_tree a.query.now)
        (map (λ s. s.value) a.taken.items) (map group_seen a.groups.items) };
}

impl<'a> PlainGroups<'a> {
    /// No chunk is taken yet. The error is want of memory, as it is of the other methods.
    pub fn new(alloc: Global, query: &'a CheckedQuery<'a>) -> Result<PlainGroups<'a>, AllocError>
        ensures { IfOk result (λ g. g ≡ record { query = query.now; taken = [] }) }
    {
        let guesses = Guesses::new(alloc)?;
        Ok(PlainGroups {
            query,
            groups: Vec::new(alloc),
            guesses,
            taken: Vec::new(alloc),
        })
    }

    /// Takes the rows of the next chunk, which may then be dropped.
    pub fn add(self, alloc: Global, chunk: &DataChunk) -> Result<PlainGroups<'a>, AllocError>
        requires fits { FitsSchema self.query.schema chunk.now.frame }
        requires few { total_height self.taken + chunk.now.frame.height < 2 ^ 32 }
        requires number { length self.taken + 1 < 2 ^ 32 }
        ensures query { IfOk result (λ g. g.query ≡ self.entry.query) }
        ensures taken { IfOk result (λ g. g.taken ≡ self.entry.taken ++ chunk.now ∷ []) }
    {
        let PlainGroups {
            query,
            mut groups,
            mut guesses,
            mut taken,
        } = self;
        let index = taken.len() as u32;
        add_chunk(alloc, &mut groups, &mut guesses, query, index, chunk)?;
        taken.push(Snapshot::of(chunk))?;
        Ok(PlainGroups {
            query,
            groups,
            guesses,
            taken,
        })
    }

    /// The groups in the order that the query gives them.
    fn ordered(self, alloc: Global, partitions: usize) -> Result<Vec<Group>, AllocError>
        requires some { 0 < partitions }
        ensures { IfOk result (λ table. let tree = query_tree self.entry.query in
            let rs = rows self.entry.taken tree in
            map group_seen table.items
            ≡ map (keyed_line (prototypes tree) rs) (groups rs tree partitions)) }
    {
        let PlainGroups { query, groups, .. } = self;
        if query.query().maintain_order {
            by_first_row(groups)
        } else if partitions == 1 {
            Ok(groups)
        } else {
            by_partition(alloc, groups, query.key_types(), partitions)
        }
    }

    /// The answer over the chunks taken, with so many partitions.
    pub fn finish(self, alloc: Global, partitions: usize) -> Result<DataFrame, AllocError>
        requires some { 0 < partitions }
        ensures { IfOk result (λ f. f
            ≡ answer self.entry.taken (query_tree self.entry.query) partitions) }
    {
        let query = self.query;
        let groups = self.ordered(alloc, partitions)?;
        let rows = output_rows(alloc, sliced(groups, query.slice()))?;
        let fields = query.output_schema().fields();
        output_frame(alloc, fields, &rows)
    }
}
