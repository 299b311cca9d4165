//! What waits in a local table.

ghost use Rattle.std.specs.Prelude.{◌≡◌, ◌↔◌, ◌<◌, [], IfOk, IfSome, IsNone, OnErr, OnOk, length, map};
ghost use Rattle.pipe_tables.specs.Buffers.{rests, rows_left, waiting_in, with_none, with_rows};
ghost use Rattle.pipe_tables.specs.LocalTable.{with_buffers};

use crate::thread_local::ThreadLocalTable;
use pipe_spill::SpillPayload;
use std::alloc::AllocError;

impl ThreadLocalTable {
    /// How many rows wait in a partition.
    pub fn waiting(&self, partition: usize) -> usize
        requires { partition < length self.now.buffers.rows }
        ensures { result ≡ length (waiting_in partition self.now.buffers) }
    {
        self.buffers.waiting(partition)
    }

    /// Takes the rows that wait in a partition, if there are any.
    pub fn rest(&mut self, partition: usize) -> Option<SpillPayload>
        requires { partition < length self.old.buffers.rows }
        ensures none { IsNone result ↔ (waiting_in partition self.old.buffers ≡ []) }
        ensures rows { IfSome result
            (λ payload. payload.rows ≡ waiting_in partition self.old.buffers) }
        ensures emptied { self.new
            ≡ with_buffers (with_rows partition [] self.old.buffers) self.old }
    {
        self.buffers.rest(partition)
    }

    /// Takes the rows that wait in each partition where some do, in order.
    pub fn get_all_spilled(&mut self) -> Result<Vec<(usize, SpillPayload)>, AllocError>
        ensures rests { IfOk result
            (λ list. map rows_left list.items ≡ rests self.old.buffers) }
        ensures emptied { OnOk result
            (self.new ≡ with_buffers (with_none self.old.buffers) self.old) }
        ensures err { OnErr result (self.new ≡ self.old) }
    {
        self.buffers.take_rests()
    }
}
