//! What whoever keeps something beside the groups of a table has to know: where they stand.

ghost use Rattle.std.specs.Prelude.{◌≡◌, ◌↔◌, ◌<◌, ◌^◌, ◌∷◌, ◌++◌, [], All, IfOk, List, false, length, map, true, ℕ};
ghost use Rattle.pipe_columns.specs.Key.{code};
ghost use Rattle.pipe_inputs.specs.ChunkRows.{row_at};
ghost use Rattle.pipe_spill.specs.SpillRow.{IsRow, spilled};
ghost use Rattle.pipe_spill.specs.declared.spill_row.SpillRow.{SpillRow};
ghost use Rattle.pipe_groups.specs.Given.{in_order};
ghost use Rattle.pipe_groups.specs.Groups.{group_of, is_held};
ghost use Rattle.pipe_groups.specs.Holds.{Holds};
ghost use Rattle.pipe_keyed.specs.Keyed.{IsAt};
ghost use Rattle.pipe_keyed.specs.Tables.{HasGroups, IsTable, put_row, TakesOne};
ghost use Rattle.pipe_tables.specs.Tables.{is_full};

use crate::hash_table::AggHashTable;
use crate::spot::{Spot, spot_for};
use pipe_inputs::ChunkRows;
use std::alloc::AllocError;

/// How an insert of a row that is lent ends, and where its group stands then.
#[derive(Clone, Copy, Debug, PartialEq, Eq)]
pub enum LentAt {
    Done(usize),
    /// Its key is new, and the limit is passed.
    Overflow,
    /// Memory was wanting.
    Memory,
}

impl AggHashTable {
    /// Takes row `row` of a chunk in as `insert_lent` does, and says where its group stands. A group
    /// that is new stands behind all others, and none moves.
    pub fn insert_lent_at(&mut self, key: &[u8], rows: &ChunkRows<'_>, row: usize) -> LentAt
        requires there { row < length rows.now }
        requires number { row < 2 ^ 32 }
        requires code { key.now ≡ code self.old.shape.key_types (row_at rows.now row).key }
        requires typed { IsRow self.old.shape.key_types self.old.shape.input_types
            (spilled self.old.shape.key_types (row_at rows.now row)) }
        requires few { TakesOne self.old }
        ensures done { (i : ℕ) → result ≡ LentAt.Done i → HasGroups self.old self.new
            (put_row self.old (spilled self.old.shape.key_types (row_at rows.now row))) }
        ensures at { (i : ℕ) → result ≡ LentAt.Done i → IsAt self.new.groups key.now i }
        ensures holds { (i : ℕ) → result ≡ LentAt.Done i → (taken : List SpillRow)
            → Holds self.old.shape.prototypes self.old.groups taken
            → Holds self.old.shape.prototypes self.new.groups
            (taken ++ spilled self.old.shape.key_types (row_at rows.now row) ∷ []) }
        ensures overflow { (result ≡ LentAt.Overflow)
            ↔ ((is_full self.old ≡ true) × (is_held key.now self.old.groups ≡ false)) }
        ensures memory { result ≡ LentAt.Memory → HasGroups self.old self.new self.old.groups }
        ensures full { result ≡ LentAt.Overflow → HasGroups self.old self.new self.old.groups }
        ensures table { IsTable self.old }
    {
        match spot_for(&self.keyed, self.limit, key) {
            Spot::At(index) => match self.keyed.feed_lent(index, rows, row) {
                Ok(()) => LentAt::Done(index),
                Err(AllocError) => LentAt::Memory,
            },
            Spot::New(hash) => {
                let index = self.keyed.len();
                match self.keyed.push_lent(hash, key, rows, row) {
                    Ok(()) => {
                        self.parts = None;
                        LentAt::Done(index)
                    }
                    Err(AllocError) => LentAt::Memory,
                }
            }
            Spot::Full => LentAt::Overflow,
        }
    }

    /// Where the groups that hold rows stand, in the order of their keys.
    pub fn ordered(&self) -> Result<Vec<usize>, AllocError>
        ensures order { IfOk result (λ v.
            map (group_of self.now.groups) v.items ≡ in_order self.now.groups) }
        ensures within { IfOk result (λ v. All (λ i. i < length self.now.groups) v.items) }
        ensures table { IsTable self.now }
    {
        self.keyed.groups().ordered()
    }
}
