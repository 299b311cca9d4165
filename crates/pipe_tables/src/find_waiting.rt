//! The groups of the keys of rows that wait are found or made, and where they are is remembered.

ghost use Rattle.std.specs.Prelude.{◌≡◌, ◌∷◌, ◌++◌, [], IfOk, List, OnErr, OnOk};
ghost use Rattle.std.specs.List.{All};
ghost use Rattle.pipe_spill.specs.declared.spill_row.SpillRow.{SpillRow};
ghost use Rattle.pipe_groups.specs.Groups.{cover, group_keys, HasGroups as SameGroups};
ghost use Rattle.pipe_keyed.specs.Keyed.{IsAt};
ghost use Rattle.pipe_waiting.specs.Waiting.{AreWaiting, HaveNoTexts, HoldRows, left_rows};
ghost use Rattle.pipe_tables.specs.Waits.{AreAt, HasCovered, HoldsAs, rows_waiting};

use crate::ahead::look_at_lent;
use crate::by_hash::ByHash;
use crate::hash_table::AggHashTable;
use crate::spot::find_near;
use pipe_chains::hash_bytes;
use pipe_keyed::KeyedGroups;
use pipe_waiting::{LentRows, WaitingRows};
use std::alloc::AllocError;

/// Puts an index behind others, where four bytes hold it.
#[inline(always)]
fn push_spot(spots: &mut Vec<u32>, index: usize) -> Result<(), AllocError>
    ensures { OnOk result (spots.new.items ≡ spots.old.items ++ index ∷ []) }
{
    let Ok(spot) = u32::try_from(index) else {
        return Err(AllocError);
    };
    spots.push(spot)?;
    Ok(())
}

/// The index of the group of a key, which is made where there is none.
#[inline(always)]
fn spot_of(keyed: &mut KeyedGroups<ByHash>, key: &[u8]) -> Result<usize, AllocError>
    ensures ok { OnOk result (SameGroups keyed.old keyed.new
        (cover keyed.old.shape.prototypes key.now keyed.old.groups)) }
    ensures at { IfOk result (λ i. IsAt keyed.new.groups key.now i) }
    ensures err { OnErr result (SameGroups keyed.old keyed.new keyed.old.groups) }
{
    let hash = hash_bytes(key);
    match find_near(keyed, false, hash, key) {
        Some(index) => Ok(index),
        None => keyed.push(hash, key),
    }
}

/// Finds or makes the group of each row's key.
fn find_rows(
    keyed: &mut KeyedGroups<ByHash>,
    mut rows: LentRows<'_>,
    spots: &mut Vec<u32>,
) -> Result<(), AllocError>
    requires held { HoldRows keyed.old.shape.input_types rows.count rows.bytes }
    requires plain { HaveNoTexts keyed.old.shape.input_types }
    ensures covered { HasCovered keyed.old keyed.new }
    ensures at { OnOk result ((before : List SpillRow)
        → AreAt (group_keys keyed.old.groups) before spots.old.items
        → AreAt (group_keys keyed.new.groups)
        (before ++ left_rows keyed.old.shape.input_types rows.entry) spots.new.items) }
{
    while let Some(row) = rows.next_key(keyed.groups().input_types()) {
        look_at_lent(keyed, &rows, spots);
        let index = spot_of(keyed, row.key)?;
        push_spot(spots, index)?;
    }
    Ok(())
}

impl AggHashTable {
    /// Finds or makes the groups of rows that are lent. Memory is taken for new keys alone.
    pub(crate) fn find_lent(
        &mut self,
        rows: LentRows<'_>,
        spots: &mut Vec<u32>,
    ) -> Result<(), AllocError>
        requires held { HoldRows self.old.shape.input_types rows.count rows.bytes }
        requires plain { HaveNoTexts self.old.shape.input_types }
        ensures same { HoldsAs self.old self.new }
        ensures at { OnOk result ((before : List SpillRow)
            → AreAt (group_keys self.old.groups) before spots.old.items
            → AreAt (group_keys self.new.groups)
            (before ++ left_rows self.old.shape.input_types rows.entry) spots.new.items) }
    {
        self.parts = None;
        find_rows(&mut self.keyed, rows, spots)
    }

    /// Finds or makes the groups of all rows that wait, in order.
    pub(crate) fn find_waiting(
        &mut self,
        waiting: &[WaitingRows],
        spots: &mut Vec<u32>,
    ) -> Result<(), AllocError>
        requires held { All (AreWaiting self.old.shape.input_types) waiting.now }
        requires plain { HaveNoTexts self.old.shape.input_types }
        requires none { spots.old.items ≡ [] }
        ensures same { HoldsAs self.old self.new }
        ensures at { OnOk result (AreAt (group_keys self.new.groups)
            (rows_waiting self.old.shape.input_types waiting.now) spots.new.items) }
    {
        for rows in waiting {
            self.find_lent(rows.lend(), spots)?;
        }
        Ok(())
    }
}
