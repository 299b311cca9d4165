//! Rows that are fed to groups that are found by their keys.

ghost use Rattle.std.specs.Prelude.{◌≡◌, ◌+◌, ◌-◌, ◌<◌, ◌≤◌, ◌^◌, ◌∷◌, ◌++◌, [], All, length, OnErr, OnOk, slice_set};
ghost use Rattle.pipe_inputs.specs.ChunkRows.{row_at};
ghost use Rattle.pipe_inputs.specs.RowRuns.{run_inputs};
ghost use Rattle.pipe_running.specs.GroupStates.{fresh_states, StatesSeen, TakesFrom};
ghost use Rattle.pipe_groups.specs.GroupRuns.{KeepNoneFrom, with_run};
ghost use Rattle.pipe_groups.specs.Groups.{group_of, HasGroups, new_group, group_with_row};

use crate::keyed_groups::KeyedGroups;
use crate::marking::Marking;
use pipe_columns::{AnyValue, Place};
use pipe_groups::own_values;
use pipe_inputs::ChunkRows;
use pipe_spill::Values;
use std::alloc::AllocError;

impl<M: Marking> KeyedGroups<M> {
    /// Takes a row into a group, without memory.
    pub fn feed(&mut self, index: usize, place: Place, values: Values)
        requires within { index < length self.old.groups }
        requires few { StatesSeen (2 ^ 32 - 2) (group_of self.old.groups index).states }
        requires taken { TakesFrom 0 (group_of self.old.groups index).states values }
        ensures groups { HasGroups self.old self.new (slice_set self.old.groups index
            (group_with_row place values (group_of self.old.groups index))) }
    {
        self.groups.feed(index, place, values);
    }

    /// Takes a row into a group, whose inputs are taken out of a list, without memory.
    pub fn feed_taken(&mut self, index: usize, place: Place, values: &mut [AnyValue])
        requires within { index < length self.old.groups }
        requires few { StatesSeen (2 ^ 32 - 2) (group_of self.old.groups index).states }
        requires taken { TakesFrom 0 (group_of self.old.groups index).states values.old }
        ensures groups { HasGroups self.old self.new (slice_set self.old.groups index
            (group_with_row place values.old (group_of self.old.groups index))) }
        ensures fits { length values.new ≡ length values.old }
    {
        self.groups.feed_taken(index, place, values);
    }

    /// Takes row `row` of a chunk into a group. Memory is taken for texts that the group keeps alone.
    #[inline(always)]
    pub fn feed_lent(
        &mut self,
        index: usize,
        rows: &ChunkRows<'_>,
        row: usize,
    ) -> Result<(), AllocError>
        requires within { index < length self.old.groups }
        requires there { row < length rows.now }
        requires number { row < 2 ^ 32 }
        requires few { StatesSeen (2 ^ 32 - 2) (group_of self.old.groups index).states }
        requires taken { TakesFrom 0 (group_of self.old.groups index).states
            (row_at rows.now row).inputs }
        ensures ok { OnOk result (HasGroups self.old self.new (slice_set self.old.groups index
            (group_with_row (row_at rows.now row).place (row_at rows.now row).inputs
            (group_of self.old.groups index)))) }
        ensures err { OnErr result (HasGroups self.old self.new self.old.groups) }
    {
        self.groups.feed_lent(index, rows, row)
    }

    /// Appends a group for a key that has none, with row `row` of a chunk, whose inputs are owned first,
    /// so that nothing can fail once there is the group.
    pub fn push_lent(
        &mut self,
        mark: u64,
        key: &[u8],
        rows: &ChunkRows<'_>,
        row: usize,
    ) -> Result<(), AllocError>
        requires mark { M.marks self.old.shape.key_types key.now mark }
        requires there { row < length rows.now }
        requires number { row < 2 ^ 32 }
        requires taken { TakesFrom 0 (fresh_states self.old.shape.prototypes)
            (row_at rows.now row).inputs }
        ensures ok { OnOk result (HasGroups self.old self.new (self.old.groups
            ++ group_with_row (row_at rows.now row).place (row_at rows.now row).inputs
            (new_group self.old.shape.prototypes key.now) ∷ [])) }
        ensures err { OnErr result (HasGroups self.old self.new self.old.groups) }
    {
        let values = own_values(self.chains.allocator(), rows, row)?;
        let index = self.push(mark, key)?;
        self.feed(index, rows.place(row), values);
        Ok(())
    }

    /// Takes rows of a chunk that follow one another into a group that keeps no text of them, without
    /// memory.
    pub fn feed_run(&mut self, index: usize, rows: &ChunkRows<'_>, row: usize, len: usize)
        requires within { index < length self.old.groups }
        requires some { 0 < len }
        requires there { row + len ≤ length rows.now }
        requires placed { row + len ≤ 2 ^ 32 }
        requires short { len < 2 ^ 32 }
        requires plain { KeepNoneFrom 0 (group_of self.old.groups index).states
            (run_inputs rows.now row len) }
        requires taken { All (λ inputs. TakesFrom 0 (group_of self.old.groups index).states inputs)
            (run_inputs rows.now row len) }
        requires few { StatesSeen (2 ^ 32 - 1 - len) (group_of self.old.groups index).states }
        ensures groups { HasGroups self.old self.new (slice_set self.old.groups index
            (with_run (row_at rows.now row).place.chunk row (run_inputs rows.now row len)
            (group_of self.old.groups index))) }
    {
        self.groups.feed_run(index, rows, row, len);
    }
}
