//! Rows that a table takes in.

ghost use Rattle.std.specs.Prelude.{◌≡◌, ◌≢◌, ◌↔◌, ◌<◌, ◌^◌, ◌∷◌, ◌++◌, [], List, false, length, true};
ghost use Rattle.pipe_columns.specs.Key.{code};
ghost use Rattle.pipe_inputs.specs.ChunkRows.{row_at};
ghost use Rattle.pipe_spill.specs.SpillRow.{IsRow, spilled};
ghost use Rattle.pipe_spill.specs.declared.spill_row.SpillRow.{SpillRow};
ghost use Rattle.pipe_groups.specs.Groups.{is_covered, is_held};
ghost use Rattle.pipe_groups.specs.Holds.{Holds};
ghost use Rattle.pipe_keyed.specs.Tables.{HasGroups, put_row, TakesOne};
ghost use Rattle.pipe_tables.specs.Tables.{is_full};
ghost use Rattle.pipe_tables.specs.declared.insert_end.InsertEnd.TheVariants as end;

use crate::hash_table::AggHashTable;
use crate::insert_end::{InsertEnd, LentEnd};
use crate::spot::{Spot, spot_for};
use pipe_inputs::ChunkRows;
use pipe_spill::{SpillRow, Values};
use std::alloc::AllocError;

/// The inputs of a row, whose key is dropped.
#[inline(always)]
fn values_of(row: SpillRow) -> Values
    ensures { result ≡ row.values }
{
    row.values
}

impl AggHashTable {
    /// Takes a row in. Where its key is covered it takes no memory.
    pub fn insert(&mut self, row: SpillRow) -> InsertEnd
        requires typed { IsRow self.old.shape.key_types self.old.shape.input_types row }
        requires few { TakesOne self.old }
        ensures done { result ≡ end.Done → HasGroups self.old self.new (put_row self.old row) }
        ensures refused { result ≢ end.Done → HasGroups self.old self.new self.old.groups }
        ensures holds { result ≡ end.Done → (rows : List SpillRow)
            → Holds self.old.shape.prototypes self.old.groups rows
            → Holds self.old.shape.prototypes self.new.groups (rows ++ row ∷ []) }
        ensures overflow { (result ≡ end.Overflow row)
            ↔ ((is_full self.old ≡ true) × (is_held row.key self.old.groups ≡ false)) }
        ensures others { (r : SpillRow) → (result ≡ end.Overflow r → r ≡ row)
            × (result ≡ end.Memory r → r ≡ row) }
        ensures covered { is_covered row.key self.old.groups ≡ true → result ≢ end.Memory row }
    {
        match spot_for(&self.keyed, self.limit, row.key.as_slice()) {
            Spot::At(index) => {
                self.keyed.feed(index, row.place, values_of(row));
                InsertEnd::Done
            }
            Spot::New(hash) => match self.keyed.push(hash, row.key.as_slice()) {
                Ok(index) => {
                    self.parts = None;
                    self.keyed.feed(index, row.place, values_of(row));
                    InsertEnd::Done
                }
                Err(AllocError) => InsertEnd::Memory(row),
            },
            Spot::Full => InsertEnd::Overflow(row),
        }
    }

    /// Takes row `row` of a chunk in, which is lent, and whose key's code is `key`. A key is owned
    /// only where it is new, and a text only where a first or a last keeps it.
    pub fn insert_lent(&mut self, key: &[u8], rows: &ChunkRows<'_>, row: usize) -> LentEnd
        requires there { row < length rows.now }
        requires number { row < 2 ^ 32 }
        requires code { key.now ≡ code self.old.shape.key_types (row_at rows.now row).key }
        requires typed { IsRow self.old.shape.key_types self.old.shape.input_types
            (spilled self.old.shape.key_types (row_at rows.now row)) }
        requires few { TakesOne self.old }
        ensures done { result ≡ LentEnd.Done → HasGroups self.old self.new
            (put_row self.old (spilled self.old.shape.key_types (row_at rows.now row))) }
        ensures refused { result ≢ LentEnd.Done → HasGroups self.old self.new self.old.groups }
        ensures holds { result ≡ LentEnd.Done → (taken : List SpillRow)
            → Holds self.old.shape.prototypes self.old.groups taken
            → Holds self.old.shape.prototypes self.new.groups
            (taken ++ spilled self.old.shape.key_types (row_at rows.now row) ∷ []) }
        ensures overflow { (result ≡ LentEnd.Overflow)
            ↔ ((is_full self.old ≡ true) × (is_held key.now self.old.groups ≡ false)) }
    {
        match spot_for(&self.keyed, self.limit, key) {
            Spot::At(index) => match self.keyed.feed_lent(index, rows, row) {
                Ok(()) => LentEnd::Done,
                Err(AllocError) => LentEnd::Memory,
            },
            Spot::New(hash) => match self.keyed.push_lent(hash, key, rows, row) {
                Ok(()) => {
                    self.parts = None;
                    LentEnd::Done
                }
                Err(AllocError) => LentEnd::Memory,
            },
            Spot::Full => LentEnd::Overflow,
        }
    }
}
