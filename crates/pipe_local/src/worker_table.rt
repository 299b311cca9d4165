//! The table of a worker.

ghost use Rattle.std.specs.Prelude.{◌≡◌, ◌<◌, ◌^◌, ◌∷◌, ◌++◌, [], All, IfOk, List, Some, false, length, true};
ghost use Rattle.pipe_columns.specs.Key.{code};
ghost use Rattle.pipe_aggs.specs.QueryTrees.{query_tree};
ghost use Rattle.pipe_inputs.specs.ChunkRows.{row_at};
ghost use Rattle.pipe_spill.specs.KeyTypes.{AreOfTypes};
ghost use Rattle.pipe_spill.specs.SpillRow.{IsRow, spilled};
ghost use Rattle.pipe_spill.specs.declared.spill_row.SpillRow.{SpillRow};
ghost use Rattle.pipe_groups.specs.Holds.{Holds};
ghost use Rattle.pipe_groups.specs.Shape.{shape_of};
ghost use Rattle.pipe_keyed.specs.Tables.{TakesOne};
ghost use Rattle.pipe_tables.specs.Buffers.{AreBuffers, leaving, no_rows};
ghost use Rattle.pipe_tables.specs.LocalTable.{IsToLimit, keeps, let_go, local_with_row, overflowing};
ghost use Rattle.pipe_local.specs.WorkerEnds.{GivesPacked, is_taken_by_worker, left_by_worker};

use crate::waiting_partitions::WaitingPartitions;
use crate::worker_end::WorkerEnd;
use pipe_aggs::CheckedQuery;
use pipe_columns::DataType;
use pipe_inputs::ChunkRows;
use pipe_tables::{AggHashTable, LentEnd};
use std::alloc::{AllocError, Global};
use std::marker::Model;

/// The groups that a worker holds, and the rows of other keys, which wait as bytes in buffers by
/// partition. Contracts see the table, the rows in each buffer, and whether a row ever overflowed.
#[derive(Drop)]
pub struct WorkerTable {
    pub(crate) table: AggHashTable,
    pub(crate) buffers: WaitingPartitions,
    pub(crate) overflowed: bool,
}

impl Model for WorkerTable {
    ghost use Rattle.pipe_tables.specs.LocalTable.{Local};
    ghost use Rattle.pipe_local.specs.WaitingBuffers.{AreHeld, buffers_read};

    ghost Value = { Local };

    ghost view = { λ a. record {
      table = a.table;
      buffers = buffers_read a.table.shape.input_types a.buffers;
      overflowed = a.overflowed;
    } };

    ghost invariant = { λ a. AreHeld a.table.shape.input_types a.buffers };
}

impl WorkerTable {
    /// A table of no rows for a query. A new key is held while at most `spill_size` are.
    pub fn new(
        alloc: Global,
        query: &CheckedQuery<'_>,
        partitions: usize,
        spill_size: usize,
        buffer_size: usize,
    ) -> Result<WorkerTable, AllocError>
        requires partitions { 0 < partitions }
        requires buffer { 0 < buffer_size }
        ensures shape { IfOk result (λ t. t.table.shape ≡ shape_of (query_tree query.now)) }
        ensures limit { IfOk result (λ t. t.table.limit ≡ Some spill_size) }
        ensures groups { IfOk result (λ t. t.table.groups ≡ []) }
        ensures size { IfOk result (λ t. t.buffers.size ≡ buffer_size) }
        ensures rows { IfOk result (λ t. t.buffers.rows ≡ no_rows partitions) }
        ensures overflowed { IfOk result (λ t. t.overflowed ≡ false) }
        ensures bound { IfOk result (λ t. IsToLimit t.table) }
        ensures buffers { IfOk result (λ t. AreBuffers t.buffers) }
    {
        let buffers = WaitingPartitions::new(alloc, partitions, buffer_size)?;
        let table = AggHashTable::new(alloc, query, Some(spill_size))?;
        Ok(WorkerTable {
            table,
            buffers,
            overflowed: false,
        })
    }

    /// An empty table of the same query and numbers.
    pub fn split(&self) -> Result<WorkerTable, AllocError>
        ensures shape { IfOk result (λ t. t.table.shape ≡ self.now.table.shape) }
        ensures limit { IfOk result (λ t. t.table.limit ≡ self.now.table.limit) }
        ensures groups { IfOk result (λ t. t.table.groups ≡ []) }
        ensures size { IfOk result (λ t. t.buffers.size ≡ self.now.buffers.size) }
        ensures rows { IfOk result
            (λ t. t.buffers.rows ≡ no_rows (length self.now.buffers.rows)) }
        ensures overflowed { IfOk result (λ t. t.overflowed ≡ false) }
        ensures bound { IfOk result (λ t. IsToLimit t.table) }
        ensures buffers { IfOk result (λ t. AreBuffers t.buffers) }
    {
        let buffers = self.buffers.split()?;
        let table = self.table.split()?;
        Ok(WorkerTable {
            table,
            buffers,
            overflowed: false,
        })
    }

    /// Reads what the next rows of a chunk need of the table, from a row on. Nothing changes.
    #[inline(always)]
    pub fn look_ahead(&mut self, types: &[DataType], rows: &ChunkRows<'_>, row: usize)
        requires { All (λ r. AreOfTypes types.now r.key) rows.now }
        ensures { self.new ≡ self.old }
    {
        self.table.look_ahead(types, rows, row);
    }

    /// Takes row `row` of a chunk in, which is lent, and whose key's code is `key`: it is held where
    /// its key is or there is room for one, and else its bytes wait in the buffer of its partition,
    /// whose rows leave where it fills it.
    pub fn insert_lent(&mut self, key: &[u8], rows: &ChunkRows<'_>, row: usize) -> WorkerEnd
        requires there { row < length rows.now }
        requires placed { row < 2 ^ 32 }
        requires code { key.now
            ≡ code self.old.table.shape.key_types (row_at rows.now row).key }
        requires typed { IsRow self.old.table.shape.key_types self.old.table.shape.input_types
            (spilled self.old.table.shape.key_types (row_at rows.now row)) }
        requires few { TakesOne self.old.table }
        ensures taken { is_taken_by_worker result ≡ true → self.new
            ≡ local_with_row (spilled self.old.table.shape.key_types (row_at rows.now row)) self.old }
        ensures payload { is_taken_by_worker result ≡ true
            → left_by_worker self.old.table.shape.input_types result
            ≡ let_go (spilled self.old.table.shape.key_types (row_at rows.now row)) self.old }
        ensures packed { GivesPacked self.old.table.shape.input_types result }
        ensures memory { result ≡ WorkerEnd.Memory → self.new ≡ self.old }
        ensures holds { is_taken_by_worker result ≡ true
            → keeps (spilled self.old.table.shape.key_types (row_at rows.now row)) self.old ≡ true
            → (taken : List SpillRow)
            → Holds self.old.table.shape.prototypes self.old.table.groups taken
            → Holds self.old.table.shape.prototypes self.new.table.groups
            (taken ++ spilled self.old.table.shape.key_types (row_at rows.now row) ∷ []) }
        ensures bound { IsToLimit self.old.table → IsToLimit self.new.table }
        ensures buffers { AreBuffers self.new.buffers }
    {
        match self.table.insert_lent(key, rows, row) {
            LentEnd::Done => WorkerEnd::Done,
            LentEnd::Memory => WorkerEnd::Memory,
            LentEnd::Overflow => self.overflow(key, rows, row),
        }
    }

    /// Puts the bytes of row `row` of a chunk into the buffer of its partition.
    #[inline(always)]
    fn overflow(&mut self, key: &[u8], rows: &ChunkRows<'_>, row: usize) -> WorkerEnd
        requires there { row < length rows.now }
        requires placed { row < 2 ^ 32 }
        requires code { key.now
            ≡ code self.old.table.shape.key_types (row_at rows.now row).key }
        requires typed { AreOfTypes self.old.table.shape.input_types (row_at rows.now row).inputs }
        ensures taken { is_taken_by_worker result ≡ true → self.new
            ≡ overflowing (spilled self.old.table.shape.key_types (row_at rows.now row)) self.old }
        ensures payload { is_taken_by_worker result ≡ true
            → left_by_worker self.old.table.shape.input_types result
            ≡ leaving (spilled self.old.table.shape.key_types (row_at rows.now row))
            self.old.buffers }
        ensures packed { GivesPacked self.old.table.shape.input_types result }
        ensures memory { result ≡ WorkerEnd.Memory → self.new ≡ self.old }
        ensures buffers { AreBuffers self.new.buffers }
    {
        match self.buffers.put(key, rows, row, self.table.input_types()) {
            WorkerEnd::Memory => WorkerEnd::Memory,
            end => {
                self.overflowed = true;
                end
            }
        }
    }
}
