//! Tables of workers that are emptied and combined.

ghost use Rattle.std.specs.Prelude.{◌≡◌, ◌↔◌, ◌<◌, ◌||◌, [], IfOk, IfSome, IsNone, OnErr, OnOk, length};
ghost use Rattle.pipe_groups.specs.Groups.{AreJoined};
ghost use Rattle.pipe_keyed.specs.Tables.{HasGroups, HoldFewTogether, KeepsShape};
ghost use Rattle.pipe_tables.specs.Buffers.{waiting_in, with_rows};
ghost use Rattle.pipe_tables.specs.LocalTable.{NoneWaits, with_buffers};
ghost use Rattle.pipe_waiting.specs.Waiting.{waiting_rows};
ghost use Rattle.pipe_local.specs.WaitingBuffers.{IsPacked};

use crate::worker_table::WorkerTable;
use pipe_tables::AggHashTable;
use pipe_waiting::WaitingRows;
use std::alloc::AllocError;

impl WorkerTable {
    /// Takes the rows that wait in a partition, if there are any.
    pub fn rest(&mut self, partition: usize) -> Result<Option<WaitingRows>, AllocError>
        requires { partition < length self.old.buffers.rows }
        ensures none { IfOk result (λ left. IsNone left
            ↔ (waiting_in partition self.old.buffers ≡ [])) }
        ensures rows { IfOk result (λ left. IfSome left
            (λ w. waiting_rows self.old.table.shape.input_types w
            ≡ waiting_in partition self.old.buffers)) }
        ensures packed { IfOk result
            (λ left. IfSome left (IsPacked self.old.table.shape.input_types)) }
        ensures emptied { OnOk result (self.new
            ≡ with_buffers (with_rows partition [] self.old.buffers) self.old) }
        ensures refused { OnErr result (self.new ≡ self.old) }
    {
        self.buffers.rest(partition)
    }

    /// Takes the rows that another worker's table holds in. That holds none then.
    pub fn combine(&mut self, other: &mut WorkerTable) -> Result<(), AllocError>
        requires none_waits { NoneWaits self.old }
        requires other_none_waits { NoneWaits other.old }
        requires shape { other.old.table.shape ≡ self.old.table.shape }
        requires few { HoldFewTogether self.old.table other.old.table }
        ensures joined { OnOk result (AreJoined self.old.table.shape.prototypes
            self.old.table.groups other.old.table.groups self.new.table.groups) }
        ensures shape { KeepsShape self.old.table self.new.table }
        ensures buffers { self.new.buffers ≡ self.old.buffers }
        ensures overflowed { OnOk result
            (self.new.overflowed ≡ (self.old.overflowed || other.old.overflowed)) }
        ensures emptied { OnOk result (HasGroups other.old.table other.new.table []) }
        ensures other_buffers { other.new.buffers ≡ other.old.buffers }
        ensures other_overflowed { other.new.overflowed ≡ other.old.overflowed }
        ensures err { OnErr result (self.new ≡ self.old) }
        ensures other_err { OnErr result (other.new ≡ other.old) }
    {
        self.table.combine(&mut other.table)?;
        self.overflowed = self.overflowed || other.overflowed;
        Ok(())
    }

    /// The table as it stands. What waits is dropped.
    pub fn into_inner_map(self) -> AggHashTable
        ensures { result ≡ self.table }
    {
        self.table
    }
}
