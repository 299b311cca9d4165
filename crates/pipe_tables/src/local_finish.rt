//! Local tables that are merged and finished.

ghost use Rattle.std.specs.Prelude.{◌≡◌, ◌↔◌, ◌||◌, [], IfOk, IfSome, None, OnErr, OnOk, true};
ghost use Rattle.std.specs.Borrow.{sem};
ghost use Rattle.pipe_columns.specs.Slice.{sliced};
ghost use Rattle.pipe_groups.specs.Given.{in_order, IsFrameOfGroups, slice_after};
ghost use Rattle.pipe_groups.specs.Groups.{AreJoined, count_held};
ghost use Rattle.pipe_tables.specs.LendsTable.{LendsTable};
ghost use Rattle.pipe_tables.specs.LocalTable.{NoneWaits};
ghost use Rattle.pipe_keyed.specs.Tables.{HasGroups, HoldFewTogether, KeepsShape};

use crate::hash_table::AggHashTable;
use crate::thread_local::ThreadLocalTable;
use pipe_columns::DataFrame;
use std::alloc::AllocError;

impl ThreadLocalTable {
    /// Takes the rows that another local table holds in. That holds none then.
    pub fn combine(&mut self, other: &mut ThreadLocalTable) -> Result<(), AllocError>
        requires none_waits { NoneWaits self.old }
        requires other_none_waits { NoneWaits other.old }
        requires shape { other.old.table.shape ≡ self.old.table.shape }
        requires few { HoldFewTogether self.old.table other.old.table }
        ensures joined { OnOk result (AreJoined self.old.table.shape.prototypes
            self.old.table.groups other.old.table.groups self.new.table.groups) }
        ensures shape { KeepsShape self.old.table self.new.table }
        ensures buffers { self.new.buffers ≡ self.old.buffers }
        ensures overflowed { OnOk result
            (self.new.overflowed ≡ (self.old.overflowed || other.old.overflowed)) }
        ensures emptied { OnOk result (HasGroups other.old.table other.new.table []) }
        ensures other_buffers { other.new.buffers ≡ other.old.buffers }
        ensures other_overflowed { other.new.overflowed ≡ other.old.overflowed }
        ensures err { OnErr result (self.new ≡ self.old) }
        ensures other_err { OnErr result (other.new ≡ other.old) }
    {
        self.table.combine(&mut other.table)?;
        self.overflowed = self.overflowed || other.overflowed;
        Ok(())
    }

    /// Gives the groups in the order of their keys, under a slice, of which less is then left. Where
    /// some row ever overflowed, they aren't all here, and nothing changes.
    pub fn finalize(
        &mut self,
        slice: &mut Option<(usize, usize)>,
    ) -> Result<Option<DataFrame>, AllocError>
        ensures none { IfOk result (λ frame. (frame ≡ None) ↔ (self.old.overflowed ≡ true)) }
        ensures frame { IfOk result (λ frame. IfSome frame (λ f.
            IsFrameOfGroups self.old.table.shape
            (sliced slice.old (in_order self.old.table.groups)) f)) }
        ensures slice { IfOk result (λ frame. IfSome frame (λ _. slice.new
            ≡ slice_after (count_held self.old.table.groups) slice.old)) }
        ensures emptied { IfOk result (λ frame. IfSome frame (λ _.
            HasGroups self.old.table self.new.table [])) }
        ensures buffers { self.new.buffers ≡ self.old.buffers }
        ensures overflowed { self.new.overflowed ≡ self.old.overflowed }
        ensures as_before { IfOk result (λ frame. frame ≡ None
            → (self.new ≡ self.old) × (slice.new ≡ slice.old)) }
        ensures err { OnErr result ((self.new ≡ self.old) × (slice.new ≡ slice.old)) }
    {
        if self.overflowed {
            return Ok(None);
        }
        let frame = self.table.finalize(slice)?;
        Ok(Some(frame))
    }

    /// The table, lent.
    pub fn get_inner_map_mut(&mut self) -> &mut AggHashTable
        ensures* writes_back { sem 𝓛 (LendsTable self.entry result) }
        ensures table { result.now ≡ self.old.table }
    {
        &mut self.table
    }

    /// The table as it stands. What waits is dropped.
    pub fn into_inner_map(self) -> AggHashTable
        ensures { result ≡ self.table }
    {
        self.table
    }
}
