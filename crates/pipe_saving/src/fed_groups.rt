//! The groups of rows, with their extents beside them.

ghost use Rattle.std.specs.Prelude.{◌≡◌, ◌+◌, ◌<◌, ◌≤◌, ◌^◌, ◌∷◌, ◌++◌, [], All, drop, IfOk, List, length, map, None, OnOk, take, ℕ};
ghost use Rattle.std.specs.List.{range_with_len};
ghost use Rattle.pipe_aggs.specs.CheckedQuery.{IsSound};
ghost use Rattle.pipe_aggs.specs.QueryTrees.{query_tree};
ghost use Rattle.pipe_aggs.specs.declared.query.Query.{Query};
ghost use Rattle.pipe_columns.specs.declared.data_chunk.DataChunk.{DataChunk};
ghost use Rattle.pipe_groups.specs.Shape.{Shape, shape_of};
ghost use Rattle.pipe_inputs.specs.ChunkRows.{row_at};
ghost use Rattle.pipe_keyed.specs.Tables.{TakesOne};
ghost use Rattle.pipe_model.specs.Groupable.{IsGroupable};
ghost use Rattle.pipe_model.specs.Rows.{rows_from};
ghost use Rattle.pipe_saving.specs.Extents.{IsFed};
ghost use Rattle.pipe_saving.specs.Lists.{row_in};
ghost use Rattle.pipe_saving.specs.Taken.{HasTaken};
ghost use Rattle.pipe_spill.specs.KeyTypes.{AreOfTypes};
ghost use Rattle.pipe_spill.specs.SpillRow.{IsRow, spilled};
ghost use Rattle.pipe_spill.specs.declared.spill_row.SpillRow.{SpillRow};
ghost use Rattle.pipe_states.specs.States.{state_rows};

use crate::extent::{Extent, in_turn, put_place};
use crate::rows::{lists_of, state_rows};
use pipe_aggs::CheckedQuery;
use pipe_columns::DataType;
use pipe_groups::{PlacedGroups, encode_row};
use pipe_inputs::ChunkRows;
use pipe_states::StateRow;
use pipe_tables::{AggHashTable, LentAt};
use std::alloc::{AllocError, Global};

/// A table without a limit, the extents of its groups in their order, and room for the code of a
/// key.
#[derive(Drop)]
pub(crate) struct FedGroups {
    pub(crate) table: AggHashTable,
    pub(crate) extents: Vec<Extent>,
    pub(crate) key: Vec<u8>,
}

/// The state rows of placed groups, whose keys have so many columns, and of their extents.
fn rows_of(
    alloc: Global,
    placed: PlacedGroups,
    width: usize,
    extents: &[Extent],
) -> Result<Vec<StateRow>, AllocError>
    requires columns { width ≤ length placed.frame.columns }
    requires count { length extents.now ≡ length placed.firsts }
    ensures { IfOk result (λ rows. rows.items
        ≡ map (row_in (map (λ c. c.values) (take width placed.frame.columns))
        (map (λ c. c.values) (drop width placed.frame.columns)) placed.firsts extents.now)
        (range_with_len 0 (length placed.firsts))) }
{
    let PlacedGroups { frame, firsts } = placed;
    let mut columns = frame.into_columns();
    let given = columns.split_off(width)?;
    let mut keys = lists_of(alloc, columns)?;
    let mut results = lists_of(alloc, given)?;
    state_rows(alloc, &mut keys, &mut results, firsts.as_slice(), extents)
}

impl FedGroups {
    /// Those of no rows of a query.
    pub(crate) fn new(alloc: Global, query: &CheckedQuery<'_>) -> Result<FedGroups, AllocError>
        ensures { IfOk result
            (λ g. IsFed (shape_of (query_tree query.now)) [] g.table g.extents.items) }
    {
        let table = AggHashTable::new(alloc, query, None)?;
        Ok(FedGroups {
            table,
            extents: Vec::new(alloc),
            key: Vec::new(alloc),
        })
    }

    /// Feeds row `row` of a chunk. A refusal leaves the table with or without it.
    #[inline(always)]
    pub(crate) fn feed_row(
        &mut self,
        rows: &ChunkRows<'_>,
        row: usize,
        types: &[DataType],
    ) -> Result<(), AllocError>
        requires there { row < length rows.now }
        requires number { row < 2 ^ 32 }
        requires types { types.now ≡ self.old.table.shape.key_types }
        requires tuple { AreOfTypes self.old.table.shape.key_types (row_at rows.now row).key }
        requires typed { IsRow self.old.table.shape.key_types self.old.table.shape.input_types
            (spilled self.old.table.shape.key_types (row_at rows.now row)) }
        requires limit { self.old.table.limit ≡ None }
        requires few { TakesOne self.old.table }
        requires counts { All (λ e. e.rows + 1 < 2 ^ 32) self.old.extents.items }
        ensures { OnOk result ((s : Shape) (taken : List SpillRow)
            → IsFed s taken self.old.table self.old.extents.items
            → IsFed s (taken ++ spilled s.key_types (row_at rows.now row) ∷ [])
            self.new.table self.new.extents.items) }
    {
        encode_row(&mut self.key, rows, row, types)?;
        match self.table.insert_lent_at(&self.key, rows, row) {
            LentAt::Done(index) => {
                put_place(&mut self.extents, index, rows.place(row))?;
                Ok(())
            }
            LentAt::Overflow => unreachable!(),
            LentAt::Memory => Err(AllocError),
        }
    }

    /// The state rows of the chunks of a query that were taken.
    pub(crate) fn into_rows(self, alloc: Global) -> Result<Vec<StateRow>, AllocError>
        requires { length self.extents.items ≡ length self.table.groups }
        ensures { IfOk result (λ rows. (q : Query) (first : ℕ) (taken : List DataChunk)
            → IsSound q → IsGroupable (query_tree q)
            → HasTaken (query_tree q) first taken self.table self.extents.items
            → rows.items ≡ state_rows (query_tree q) (rows_from (query_tree q) first taken)) }
    {
        let FedGroups {
            mut table,
            extents,
            key,
        } = self;
        drop(key);
        let width = table.key_types().len();
        let order = table.ordered()?;
        let turned = in_turn(alloc, &extents, &order)?;
        let placed = table.finalize_placed()?;
        drop(table);
        rows_of(alloc, placed, width, &turned)
    }
}
