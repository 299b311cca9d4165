//! The groups of a query over chunks that come one by one.

ghost use Rattle.std.specs.Prelude.{◌≡◌, ◌+◌, ◌<◌, ◌^◌, ◌∷◌, ◌++◌, [], IfOk, List, None, OnOk, length, map};
ghost use Rattle.pipe_columns.specs.Frame.{FitsSchema, HoldsTypes};
ghost use Rattle.pipe_aggs.specs.QueryTrees.{query_tree};
ghost use Rattle.pipe_model.specs.Answer.{answer};
ghost use Rattle.pipe_model.specs.Output.{key_types};
ghost use Rattle.pipe_model.specs.Rows.{chunk_rows, total_height};
ghost use Rattle.pipe_spill.specs.SpillRow.{AreRows, spilled};
ghost use Rattle.pipe_spill.specs.declared.spill_row.SpillRow.{SpillRow};
ghost use Rattle.pipe_groups.specs.Holds.{HoldFewer, Holds};
ghost use Rattle.pipe_groups.specs.Shape.{shape_of};
ghost use Rattle.pipe_keyed.specs.Tables.{KeepsShape};
ghost use Rattle.pipe_tables.specs.Taken.{TableHasTaken};

use crate::hash_table::AggHashTable;
use crate::insert_end::LentEnd;
use pipe_aggs::CheckedQuery;
use pipe_columns::{DataChunk, DataFrame};
use pipe_groups::encode_row;
use pipe_inputs::ChunkRows;
use std::alloc::{AllocError, Global};
use std::marker::Model;
use std::snapshot::Snapshot;

/// Puts the rows of the chunk at a position into a table without a limit.
fn add_chunk(
    alloc: Global,
    table: &mut AggHashTable,
    key: &mut Vec<u8>,
    query: &CheckedQuery<'_>,
    index: u32,
    chunk: &DataChunk,
) -> Result<(), AllocError>
    requires fits { FitsSchema query.now.schema chunk.now.frame }
    requires height { chunk.now.frame.height < 2 ^ 32 }
    requires shape { table.old.shape ≡ shape_of (query_tree query.now) }
    requires limit { table.old.limit ≡ None }
    requires few { HoldFewer table.old.shape table.old.groups chunk.now.frame.height }
    ensures shape { KeepsShape table.old table.new }
    ensures holds { OnOk result ((taken : List SpillRow)
        → Holds table.old.shape.prototypes table.old.groups taken
        → Holds table.old.shape.prototypes table.new.groups
        (taken ++ map (spilled (key_types (query_tree query.now)))
        (chunk_rows (query_tree query.now) index chunk.now.frame))) }
    ensures typed { OnOk result (AreRows table.old.shape.key_types table.old.shape.input_types
        (map (spilled (key_types (query_tree query.now)))
        (chunk_rows (query_tree query.now) index chunk.now.frame))) }
    ensures types { HoldsTypes chunk.now.frame }
{
    let height = chunk.frame.height();
    let rows = ChunkRows::new(alloc, query, index, chunk)?;
    let types = query.key_types();
    for row in 0..height {
        encode_row(key, &rows, row, types)?;
        match table.insert_lent(key, &rows, row) {
            LentEnd::Done => {}
            LentEnd::Overflow => unreachable!(),
            LentEnd::Memory => return Err(AllocError),
        }
    }
    Ok(())
}

/// Puts the rows of the next chunk into a table that has taken chunks, of which marks are at hand, and
/// marks it too.
fn take_chunk(
    alloc: Global,
    table: &mut AggHashTable,
    key: &mut Vec<u8>,
    taken: &mut Vec<Snapshot<DataChunk>>,
    query: &CheckedQuery<'_>,
    chunk: &DataChunk,
) -> Result<(), AllocError>
    requires before { TableHasTaken (query_tree query.now) (map (λ s. s.value) taken.old.items) table.old }
    requires fits { FitsSchema query.now.schema chunk.now.frame }
    requires few { total_height (map (λ s. s.value) taken.old.items) + chunk.now.frame.height
        < 2 ^ 32 }
    requires number { length taken.old.items + 1 < 2 ^ 32 }
    ensures after { OnOk result (TableHasTaken (query_tree query.now)
        (map (λ s. s.value) taken.new.items) table.new) }
    ensures taken { OnOk result (map (λ s. s.value) taken.new.items
        ≡ map (λ s. s.value) taken.old.items ++ chunk.now ∷ []) }
{
    let index = taken.len() as u32;
    add_chunk(alloc, table, key, query, index, chunk)?;
    taken.push(Snapshot::of(chunk))?;
    Ok(())
}

/// The answer of a query by a table that has taken chunks, of which marks are at hand.
fn answer_of(
    alloc: Global,
    query: &CheckedQuery<'_>,
    table: &mut AggHashTable,
    taken: &[Snapshot<DataChunk>],
) -> Result<DataFrame, AllocError>
    requires { TableHasTaken (query_tree query.now) (map (λ s. s.value) taken.now) table.old }
    ensures { IfOk result (λ f. f
        ≡ answer (map (λ s. s.value) taken.now) (query_tree query.now) 1) }
{
    let mut slice = query.slice();
    if query.query().maintain_order {
        let placed = table.finalize_placed()?;
        return placed.in_order_of_rows(alloc, &mut slice);
    }
    table.finalize(&mut slice)
}

/// The groups of a query over chunks that come one by one. Contracts see the query and the chunks
/// taken, though of each only a mark without bytes is kept.
#[derive(Drop)]
pub struct QueryGroups<'a> {
    query: &'a CheckedQuery<'a>,
    table: AggHashTable,
    key: Vec<u8>,
    taken: Vec<Snapshot<DataChunk>>,
}

impl<'a> Model for QueryGroups<'a> {
    ghost use Rattle.std.specs.Prelude.{map};
    ghost use Rattle.pipe_aggs.specs.QueryTrees.{query_tree};
    ghost use Rattle.pipe_tables.specs.Taken.{TableHasTaken, QueryRun};

    ghost Value = { QueryRun };

    ghost view = { λ a. record { query = a.query.now; taken = map (λ s. s.value) a.taken.items } };

    ghost invariant = { λ a. TableHasTaken (query_tree a.query.now)
        (map (λ s. s.value) a.taken.items) a.table };
}

impl<'a> QueryGroups<'a> {
    /// No chunk is taken yet. The error is want of memory, as it is of the other methods.
    pub fn new(alloc: Global, query: &'a CheckedQuery<'a>) -> Result<QueryGroups<'a>, AllocError>
        ensures { IfOk result (λ g. g ≡ record { query = query.now; taken = [] }) }
    {
        let table = AggHashTable::new(alloc, query, None)?;
        Ok(QueryGroups {
            query,
            table,
            key: Vec::new(alloc),
            taken: Vec::new(alloc),
        })
    }

    /// Takes the rows of the next chunk, which may then be dropped.
    pub fn add(self, alloc: Global, chunk: &DataChunk) -> Result<QueryGroups<'a>, AllocError>
        requires fits { FitsSchema self.query.schema chunk.now.frame }
        requires few { total_height self.taken + chunk.now.frame.height < 2 ^ 32 }
        requires number { length self.taken + 1 < 2 ^ 32 }
        ensures query { IfOk result (λ g. g.query ≡ self.entry.query) }
        ensures taken { IfOk result (λ g. g.taken ≡ self.entry.taken ++ chunk.now ∷ []) }
    {
        let QueryGroups {
            query,
            mut table,
            mut key,
            mut taken,
        } = self;
        take_chunk(alloc, &mut table, &mut key, &mut taken, query, chunk)?;
        Ok(QueryGroups {
            query,
            table,
            key,
            taken,
        })
    }

    /// The answer over the chunks taken.
    pub fn finish(self, alloc: Global) -> Result<DataFrame, AllocError>
        ensures { IfOk result (λ f. f
            ≡ answer self.entry.taken (query_tree self.entry.query) 1) }
    {
        let QueryGroups {
            query,
            mut table,
            taken,
            ..
        } = self;
        answer_of(alloc, query, &mut table, &taken)
    }
}
