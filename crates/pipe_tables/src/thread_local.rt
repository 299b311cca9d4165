//! The local table of a worker.

ghost use Rattle.std.specs.Prelude.{◌≡◌, ◌<◌, ◌^◌, ◌++◌, ◌∷◌, ◌||◌, [], IfOk, List, OnErr, OnOk, Some, false, length, true, All};
ghost use Rattle.pipe_columns.specs.Key.{code};
ghost use Rattle.pipe_aggs.specs.QueryTrees.{query_tree};
ghost use Rattle.pipe_inputs.specs.ChunkRows.{row_at};
ghost use Rattle.pipe_spill.specs.KeyTypes.{AreOfTypes};
ghost use Rattle.pipe_spill.specs.SpillRow.{IsRow, spilled};
ghost use Rattle.pipe_spill.specs.declared.spill_row.SpillRow.{SpillRow};
ghost use Rattle.pipe_groups.specs.Holds.{Holds};
ghost use Rattle.pipe_groups.specs.Shape.{shape_of};
ghost use Rattle.pipe_tables.specs.Buffers.{AreBuffers, buffer_of, is_taken, is_taken_lent, leaving, left_by, left_by_lent, no_rows};
ghost use Rattle.pipe_tables.specs.LocalTable.{IsToLimit, keeps, let_go, overflowing, local_with_row};
ghost use Rattle.pipe_keyed.specs.Tables.{TakesOne};

use crate::hash_table::AggHashTable;
use crate::insert_end::{InsertEnd, LentEnd};
use crate::local_end::{LentLocalEnd, LocalEnd};
use crate::spill_partitions::SpillPartitions;
use pipe_aggs::CheckedQuery;
use pipe_columns::DataType;
use pipe_groups::own_values;
use pipe_inputs::ChunkRows;
use pipe_spill::{KeyBytes, SpillRow};
use std::alloc::{AllocError, Global};
use std::marker::Model;

/// The groups that a worker holds, and the rows of other keys, which wait in buffers by partition.
/// Contracts see the table, the buffers, and whether a row ever overflowed.
#[derive(Drop)]
pub struct ThreadLocalTable {
    pub(crate) table: AggHashTable,
    pub(crate) buffers: SpillPartitions,
    pub(crate) overflowed: bool,
}

impl Model for ThreadLocalTable {
    ghost use Rattle.pipe_tables.specs.Buffers.{AreBuffers};
    ghost use Rattle.pipe_tables.specs.LocalTable.{Local};

    ghost Value = { Local };

    ghost view = { λ a. record {
      table = a.table;
      buffers = a.buffers;
      overflowed = a.overflowed;
    } };

    ghost invariant = { λ a. AreBuffers a.buffers };
}

impl ThreadLocalTable {
    /// A local table of no rows for a query. A new key is held while at most `spill_size` are.
    pub fn new(
        alloc: Global,
        query: &CheckedQuery<'_>,
        partitions: usize,
        spill_size: usize,
        buffer_size: usize,
    ) -> Result<ThreadLocalTable, AllocError>
        requires partitions { 0 < partitions }
        requires buffer { 0 < buffer_size }
        ensures shape { IfOk result (λ t. t.table.shape ≡ shape_of (query_tree query.now)) }
        ensures limit { IfOk result (λ t. t.table.limit ≡ Some spill_size) }
        ensures groups { IfOk result (λ t. t.table.groups ≡ []) }
        ensures size { IfOk result (λ t. t.buffers.size ≡ buffer_size) }
        ensures rows { IfOk result (λ t. t.buffers.rows ≡ no_rows partitions) }
        ensures overflowed { IfOk result (λ t. t.overflowed ≡ false) }
        ensures bound { IfOk result (λ t. IsToLimit t.table) }
        ensures buffers { IfOk result (λ t. AreBuffers t.buffers) }
    {
        let buffers = SpillPartitions::new(alloc, partitions, buffer_size)?;
        let table = AggHashTable::new(alloc, query, Some(spill_size))?;
        Ok(ThreadLocalTable {
            table,
            buffers,
            overflowed: false,
        })
    }

    /// An empty local table of the same query and numbers.
    pub fn split(&self) -> Result<ThreadLocalTable, AllocError>
        ensures shape { IfOk result (λ t. t.table.shape ≡ self.now.table.shape) }
        ensures limit { IfOk result (λ t. t.table.limit ≡ self.now.table.limit) }
        ensures groups { IfOk result (λ t. t.table.groups ≡ []) }
        ensures size { IfOk result (λ t. t.buffers.size ≡ self.now.buffers.size) }
        ensures rows { IfOk result
            (λ t. t.buffers.rows ≡ no_rows (length self.now.buffers.rows)) }
        ensures overflowed { IfOk result (λ t. t.overflowed ≡ false) }
        ensures bound { IfOk result (λ t. IsToLimit t.table) }
        ensures buffers { IfOk result (λ t. AreBuffers t.buffers) }
    {
        let buffers = self.buffers.split()?;
        let table = self.table.split()?;
        Ok(ThreadLocalTable {
            table,
            buffers,
            overflowed: false,
        })
    }

    /// Takes a row in: it is held where its key is or there is room for one, and else waits in the
    /// buffer of its partition, whose rows leave where it fills it.
    pub fn insert(&mut self, row: SpillRow) -> LocalEnd
        requires typed { IsRow self.old.table.shape.key_types self.old.table.shape.input_types row }
        requires few { TakesOne self.old.table }
        ensures taken { is_taken result ≡ true → self.new ≡ local_with_row row self.old }
        ensures payload { is_taken result ≡ true → left_by result ≡ let_go row self.old }
        ensures memory { (r : SpillRow) → result ≡ LocalEnd.Memory r
            → (r ≡ row) × (self.new ≡ self.old) }
        ensures holds { is_taken result ≡ true → keeps row self.old ≡ true
            → (rows : List SpillRow)
            → Holds self.old.table.shape.prototypes self.old.table.groups rows
            → Holds self.old.table.shape.prototypes self.new.table.groups (rows ++ row ∷ []) }
        ensures bound { IsToLimit self.old.table → IsToLimit self.new.table }
        ensures buffers { AreBuffers self.new.buffers }
    {
        match self.table.insert(row) {
            InsertEnd::Done => LocalEnd::Done,
            InsertEnd::Memory(row) => LocalEnd::Memory(row),
            InsertEnd::Overflow(row) => {
                let partition = self.buffers.partition(row.key.as_slice());
                self.overflow(partition, row)
            }
        }
    }

    /// Reads what the next rows of a chunk need of the table, from a row on. Nothing changes.
    #[inline(always)]
    pub fn look_ahead(&mut self, types: &[DataType], rows: &ChunkRows<'_>, row: usize)
        requires { All (λ r. AreOfTypes types.now r.key) rows.now }
        ensures { self.new ≡ self.old }
    {
        self.table.look_ahead(types, rows, row);
    }

    /// Takes row `row` of a chunk in, which is lent, and whose key's code is `key`. The row is owned
    /// only where it overflows.
    pub fn insert_lent(&mut self, key: &[u8], rows: &ChunkRows<'_>, row: usize) -> LentLocalEnd
        requires there { row < length rows.now }
        requires placed { row < 2 ^ 32 }
        requires code { key.now
            ≡ code self.old.table.shape.key_types (row_at rows.now row).key }
        requires typed { IsRow self.old.table.shape.key_types self.old.table.shape.input_types
            (spilled self.old.table.shape.key_types (row_at rows.now row)) }
        requires few { TakesOne self.old.table }
        ensures taken { is_taken_lent result ≡ true → self.new
            ≡ local_with_row (spilled self.old.table.shape.key_types (row_at rows.now row)) self.old }
        ensures payload { is_taken_lent result ≡ true → left_by_lent result
            ≡ let_go (spilled self.old.table.shape.key_types (row_at rows.now row)) self.old }
        ensures memory { result ≡ LentLocalEnd.Memory → self.new ≡ self.old }
        ensures holds { is_taken_lent result ≡ true
            → keeps (spilled self.old.table.shape.key_types (row_at rows.now row)) self.old ≡ true
            → (taken : List SpillRow)
            → Holds self.old.table.shape.prototypes self.old.table.groups taken
            → Holds self.old.table.shape.prototypes self.new.table.groups
            (taken ++ spilled self.old.table.shape.key_types (row_at rows.now row) ∷ []) }
        ensures bound { IsToLimit self.old.table → IsToLimit self.new.table }
        ensures buffers { AreBuffers self.new.buffers }
    {
        match self.table.insert_lent(key, rows, row) {
            LentEnd::Done => LentLocalEnd::Done,
            LentEnd::Memory => LentLocalEnd::Memory,
            LentEnd::Overflow => self.overflow_lent(key, rows, row),
        }
    }

    /// Puts row `row` of a chunk, which is owned, into the buffer of its partition.
    #[inline(always)]
    fn overflow_lent(&mut self, key: &[u8], rows: &ChunkRows<'_>, row: usize) -> LentLocalEnd
        requires there { row < length rows.now }
        requires placed { row < 2 ^ 32 }
        requires code { key.now
            ≡ code self.old.table.shape.key_types (row_at rows.now row).key }
        ensures taken { is_taken_lent result ≡ true → self.new
            ≡ overflowing (spilled self.old.table.shape.key_types (row_at rows.now row)) self.old }
        ensures payload { is_taken_lent result ≡ true → left_by_lent result
            ≡ leaving (spilled self.old.table.shape.key_types (row_at rows.now row))
            self.old.buffers }
        ensures memory { result ≡ LentLocalEnd.Memory → self.new ≡ self.old }
        ensures buffers { AreBuffers self.new.buffers }
    {
        let partition = self.buffers.partition(key);
        match own_row(self.buffers.alloc(), key, rows, row) {
            Ok(row) => self.overflow(partition, row).lent(),
            Err(AllocError) => LentLocalEnd::Memory,
        }
    }

    /// Puts a row into the buffer of its partition.
    #[inline(always)]
    fn overflow(&mut self, partition: usize, row: SpillRow) -> LocalEnd
        requires { partition ≡ buffer_of row.key self.old.buffers }
        ensures taken { is_taken result ≡ true → self.new ≡ overflowing row self.old }
        ensures payload { is_taken result ≡ true → left_by result ≡ leaving row self.old.buffers }
        ensures memory { (r : SpillRow) → result ≡ LocalEnd.Memory r
            → (r ≡ row) × (self.new ≡ self.old) }
        ensures buffers { AreBuffers self.new.buffers }
    {
        match self.buffers.insert_at(partition, row) {
            LocalEnd::Memory(row) => LocalEnd::Memory(row),
            end => {
                self.overflowed = true;
                end
            }
        }
    }
}

/// A row of a chunk as it is spilled, of its own.
#[inline(always)]
fn own_row(
    alloc: Global,
    key: &[u8],
    rows: &ChunkRows<'_>,
    row: usize,
) -> Result<SpillRow, AllocError>
    requires there { row < length rows.now }
    requires placed { row < 2 ^ 32 }
    ensures place { IfOk result (λ r. r.place ≡ (row_at rows.now row).place) }
    ensures key { IfOk result (λ r. r.key ≡ key.now) }
    ensures values { IfOk result (λ r. r.values ≡ (row_at rows.now row).inputs) }
{
    let key = KeyBytes::from_slice(alloc, key)?;
    let values = own_values(alloc, rows, row)?;
    Ok(SpillRow {
        place: rows.place(row),
        key,
        values,
    })
}
