//! Rows that wait as bytes are taken in, all of them or none.

ghost use Rattle.std.specs.Prelude.{◌≡◌, ◌++◌, List, ℕ, OnErr, OnOk, length};
ghost use Rattle.std.specs.List.{All};
ghost use Rattle.pipe_spill.specs.SpillRow.{AreRows};
ghost use Rattle.pipe_spill.specs.declared.spill_row.SpillRow.{SpillRow};
ghost use Rattle.pipe_groups.specs.Groups.{held_at};
ghost use Rattle.pipe_groups.specs.Holds.{HoldFewer, Holds};
ghost use Rattle.pipe_keyed.specs.Tables.{KeepsShape};
ghost use Rattle.pipe_waiting.specs.Waiting.{AreWaiting, HaveNoTexts, HoldRows, left_rows};
ghost use Rattle.pipe_tables.specs.Waits.{rows_waiting};

use crate::hash_table::AggHashTable;
use pipe_columns::AnyValue;
use pipe_waiting::{LentRows, WaitingRows};
use std::alloc::AllocError;

/// How many rows wait.
fn count_of(waiting: &[WaitingRows]) -> usize {
    let mut count: usize = 0;
    for rows in waiting {
        count = count.saturating_add(rows.len());
    }
    count
}

impl AggHashTable {
    /// Takes rows in that are lent, of which no input is a text, all of them or none. The list is for
    /// their inputs. The limit is lifted meanwhile.
    ///
    /// First the group of each row's key is found, or made, which alone takes memory, and then each row
    /// is fed to its group. Where it is refused, some keys may have a group without rows.
    pub fn take_lent(
        &mut self,
        rows: LentRows<'_>,
        values: &mut [AnyValue],
    ) -> Result<(), AllocError>
        requires held { HoldRows self.old.shape.input_types rows.count rows.bytes }
        requires plain { HaveNoTexts self.old.shape.input_types }
        requires fit { length values.old ≡ length self.old.shape.input_types }
        requires typed { AreRows self.old.shape.key_types self.old.shape.input_types
            (left_rows self.old.shape.input_types rows) }
        requires few { HoldFewer self.old.shape self.old.groups
            (length (left_rows self.old.shape.input_types rows)) }
        ensures shape { KeepsShape self.old self.new }
        ensures ok { OnOk result ((held : List SpillRow)
            → Holds self.old.shape.prototypes self.old.groups held
            → Holds self.old.shape.prototypes self.new.groups
            (held ++ left_rows self.old.shape.input_types rows.entry)) }
        ensures err { OnErr result ((k : List ℕ)
            → held_at k self.new.groups ≡ held_at k self.old.groups) }
        ensures fits { length values.new ≡ length values.old }
    {
        let mut spots = Vec::with_capacity(self.keyed.allocator(), rows.len())?;
        self.find_lent(rows.again(), &mut spots)?;
        self.feed_lent(rows, &spots, values);
        Ok(())
    }

    /// Takes all rows in that wait, of which no input is a text, or none of them, as `take_lent` does.
    pub fn take_waiting(
        &mut self,
        waiting: &[WaitingRows],
        values: &mut [AnyValue],
    ) -> Result<(), AllocError>
        requires held { All (AreWaiting self.old.shape.input_types) waiting.now }
        requires plain { HaveNoTexts self.old.shape.input_types }
        requires fit { length values.old ≡ length self.old.shape.input_types }
        requires typed { AreRows self.old.shape.key_types self.old.shape.input_types
            (rows_waiting self.old.shape.input_types waiting.now) }
        requires few { HoldFewer self.old.shape self.old.groups
            (length (rows_waiting self.old.shape.input_types waiting.now)) }
        ensures shape { KeepsShape self.old self.new }
        ensures ok { OnOk result ((held : List SpillRow)
            → Holds self.old.shape.prototypes self.old.groups held
            → Holds self.old.shape.prototypes self.new.groups
            (held ++ rows_waiting self.old.shape.input_types waiting.now)) }
        ensures err { OnErr result ((k : List ℕ)
            → held_at k self.new.groups ≡ held_at k self.old.groups) }
        ensures fits { length values.new ≡ length values.old }
    {
        let mut spots = Vec::with_capacity(self.keyed.allocator(), count_of(waiting))?;
        self.find_waiting(waiting, &mut spots)?;
        self.feed_waiting(waiting, &spots, values);
        Ok(())
    }
}
