//! Rows that are fed to groups.

ghost use Rattle.std.specs.Prelude.{◌≡◌, ◌+◌, ◌-◌, ◌≤◌, ◌<◌, ◌^◌, [], IsOk, OnErr, OnOk, Some, if◌then◌else◌, is_some, length, slice_index_or, slice_set, vec_capacity};
ghost use Rattle.pipe_columns.specs.Place.{place_cmp};
ghost use Rattle.pipe_inputs.specs.ChunkRows.{row_at};
ghost use Rattle.pipe_running.specs.GroupStates.{StatesSeen, TakesFrom};
ghost use Rattle.pipe_running.specs.Pick.{nearer};
ghost use Rattle.pipe_groups.specs.Groups.{group_of, HasGroups, KeepsRoom, group_with_row};
ghost use Rattle.pipe_groups.specs.Layout.{no_entry};
ghost use Rattle.pipe_groups.specs.Texts.{kept_texts};

use crate::groups::{Entry, Groups};
use crate::lent_states::lend_row;
use crate::states::feed_states;
use pipe_columns::Place;
use pipe_inputs::ChunkRows;
use pipe_spill::Values;
use std::alloc::AllocError;

/// Puts a place to an entry, and counts it if that is its first.
#[inline(always)]
pub(crate) fn put_place(entries: &mut Vec<Entry>, held: &mut usize, index: usize, place: Place)
    requires within { index < length entries.old.items }
    requires few { held.old ≤ length entries.old.items }
    ensures entries { entries.new.items ≡ (let e = slice_index_or entries.old.items index no_entry in
        slice_set entries.old.items index
        (record e { first = Some (nearer place_cmp place e.first) })) }
    ensures held { held.new ≡ (if is_some (slice_index_or entries.old.items index no_entry).first
        then held.old else held.old + 1) }
    ensures capacity { vec_capacity entries.new ≡ vec_capacity entries.old }
{
    let entry = &mut entries[index];
    match entry.first {
        None => {
            *held += 1;
            entry.first = Some(place);
        }
        Some(first) => {
            if place < first {
                entry.first = Some(place);
            }
        }
    }
}

impl Groups {
    /// Feeds a group a row: its place, and its inputs, which are moved. It takes no memory.
    pub fn feed(&mut self, index: usize, place: Place, values: Values)
        requires within { index < length self.old.groups }
        requires few { StatesSeen (2 ^ 32 - 2) (group_of self.old.groups index).states }
        requires taken { TakesFrom 0 (group_of self.old.groups index).states values }
        ensures groups { HasGroups self.old self.new (slice_set self.old.groups index
            (group_with_row place values (group_of self.old.groups index))) }
        ensures room { KeepsRoom self.old self.new }
    {
        feed_states(&mut self.states, index, place, values);
        put_place(&mut self.entries, &mut self.held, index, place);
    }

    /// Feeds a group a row of a chunk, which is lent. A text that a first or a last keeps is copied
    /// before anything changes; nothing else takes memory.
    #[inline(always)]
    pub fn feed_lent(
        &mut self,
        index: usize,
        rows: &ChunkRows<'_>,
        row: usize,
    ) -> Result<(), AllocError>
        requires within { index < length self.old.groups }
        requires there { row < length rows.now }
        requires placed { row < 2 ^ 32 }
        requires few { StatesSeen (2 ^ 32 - 2) (group_of self.old.groups index).states }
        requires taken { TakesFrom 0 (group_of self.old.groups index).states
            (row_at rows.now row).inputs }
        ensures ok { OnOk result (let r = row_at rows.now row in
            HasGroups self.old self.new (slice_set self.old.groups index
            (group_with_row r.place r.inputs (group_of self.old.groups index)))) }
        ensures err { OnErr result (HasGroups self.old self.new self.old.groups) }
        ensures room { KeepsRoom self.old self.new }
        ensures plain { kept_texts (row_at rows.now row).place 0 (row_at rows.now row).inputs
            (group_of self.old.groups index).states ≡ [] → IsOk result }
    {
        let place = rows.place(row);
        lend_row(&mut self.states, index, &mut self.copies, rows, row, place)?;
        put_place(&mut self.entries, &mut self.held, index, place);
        Ok(())
    }
}
