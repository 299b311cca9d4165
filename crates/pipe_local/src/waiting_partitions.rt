//! Buffers of rows that wait as bytes, one for each partition.

ghost use Rattle.std.specs.Prelude.{◌≡◌, ◌<◌, ◌^◌, IfOk, List, OnErr, length};
ghost use Rattle.pipe_columns.specs.declared.data_type.DataType.{DataType};
ghost use Rattle.pipe_inputs.specs.ChunkRows.{row_at};
ghost use Rattle.pipe_spill.specs.KeyTypes.{AreOfTypes};
ghost use Rattle.pipe_tables.specs.Buffers.{buffer_of, no_rows};
ghost use Rattle.pipe_waiting.specs.Waiting.{lent_row};
ghost use Rattle.pipe_local.specs.WaitingBuffers.{AreHeld, buffers_read};
ghost use Rattle.pipe_local.specs.BufferEnds.{HasGivenRest, HasPut, StayAsRead};

use crate::one_buffer::{put_into, take_rest};
use crate::worker_end::WorkerEnd;
use pipe_columns::DataType;
use pipe_inputs::ChunkRows;
use pipe_spill::partition_of;
use pipe_waiting::WaitingRows;
use std::alloc::{AllocError, Global};
use std::marker::Model;

/// Rows that wait in buffers, one for each partition. A buffer leaves when it reaches a size.
/// Contracts see the size and what waits in each buffer.
#[derive(Drop)]
pub(crate) struct WaitingPartitions {
    buffers: Vec<WaitingRows>,
    buffer_size: usize,
}

impl Model for WaitingPartitions {
    ghost use Rattle.pipe_local.specs.WaitingBuffers.{WaitingBuffers};

    ghost Value = { WaitingBuffers };

    ghost view = { λ a. record { size = a.buffer_size; waiting = a.buffers.items } };
}

impl WaitingPartitions {
    /// So many buffers of a size, which take memory as rows come.
    pub(crate) fn new(
        alloc: Global,
        partitions: usize,
        buffer_size: usize,
    ) -> Result<WaitingPartitions, AllocError>
        requires partitions { 0 < partitions }
        requires buffer { 0 < buffer_size }
        ensures size { IfOk result (λ b. b.size ≡ buffer_size) }
        ensures rows { IfOk result (λ b. (types : List DataType)
            → (buffers_read types b).rows ≡ no_rows partitions) }
        ensures held { IfOk result (λ b. (types : List DataType) → AreHeld types b) }
    {
        let mut buffers = Vec::with_capacity(alloc, partitions)?;
        for _ in 0..partitions {
            buffers.push(WaitingRows::new(alloc))?;
        }
        Ok(WaitingPartitions {
            buffers,
            buffer_size,
        })
    }

    /// Empty buffers of the same size and number.
    pub(crate) fn split(&self) -> Result<WaitingPartitions, AllocError>
        requires some { 0 < length self.now.waiting }
        requires size { 0 < self.now.size }
        ensures size { IfOk result (λ b. b.size ≡ self.now.size) }
        ensures rows { IfOk result (λ b. (types : List DataType)
            → (buffers_read types b).rows ≡ no_rows (length self.now.waiting)) }
        ensures held { IfOk result (λ b. (types : List DataType) → AreHeld types b) }
    {
        let alloc = *self.buffers.allocator();
        WaitingPartitions::new(alloc, self.buffers.len(), self.buffer_size)
    }

    /// Puts row `row` of a chunk behind those of its key's partition. Where it fills the buffer, the
    /// rows leave.
    #[inline(always)]
    pub(crate) fn put(
        &mut self,
        key: &[u8],
        rows: &ChunkRows<'_>,
        row: usize,
        types: &[DataType],
    ) -> WorkerEnd
        requires there { row < length rows.now }
        requires placed { row < 2 ^ 32 }
        requires typed { AreOfTypes types.now (row_at rows.now row).inputs }
        requires held { AreHeld types.now self.old }
        ensures { HasPut types.now (lent_row key.now (row_at rows.now row).place rows.now row)
            self.old self.new result }
    {
        let alloc = *self.buffers.allocator();
        let partition = partition_of(key, self.buffers.len());
        let buffer = &mut self.buffers[partition];
        put_into(
            alloc,
            buffer,
            partition,
            self.buffer_size,
            key,
            rows,
            row,
            types,
        )
    }

    /// Takes what waits in a partition, if anything does.
    pub(crate) fn rest(&mut self, partition: usize) -> Result<Option<WaitingRows>, AllocError>
        requires { partition < length self.old.waiting }
        ensures given { IfOk result (λ left. (types : List DataType) → AreHeld types self.old
            → HasGivenRest types partition left self.old self.new) }
        ensures refused { OnErr result ((types : List DataType) → AreHeld types self.old
            → StayAsRead types self.old self.new) }
    {
        let alloc = *self.buffers.allocator();
        take_rest(alloc, &mut self.buffers[partition])
    }
}
