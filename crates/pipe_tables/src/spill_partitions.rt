//! Buffers of rows, one for each partition.

ghost use Rattle.std.specs.Prelude.{◌≡◌, ◌↔◌, ◌<◌, ◌∷◌, ◌++◌, [], IfErr, IfOk, IfSome, IsNone, OnErr, OnOk, length, map, slice_index_or, slice_set, true, vec_len};
ghost use Rattle.pipe_spill.specs.declared.spill_row.SpillRow.{SpillRow};
ghost use Rattle.pipe_tables.specs.BufferLayout.{rows_of};
ghost use Rattle.pipe_tables.specs.Buffers.{AreBuffers, buffer_of, buffered, is_taken, leaving, left_by, no_rows, rests, rows_left, waiting_in, with_none, with_rows};

use crate::local_end::LocalEnd;
use pipe_spill::{SpillPayload, SpillRow, partition_of};
use std::alloc::{AllocError, Global};
use std::marker::Model;
use std::mem;

/// Rows that wait in buffers, one for each partition. A buffer leaves when it reaches a size.
/// Contracts see the size and the rows of each buffer.
#[derive(Drop)]
pub struct SpillPartitions {
    buffers: Vec<Vec<SpillRow>>,
    buffer_size: usize,
}

impl Model for SpillPartitions {
    ghost use Rattle.pipe_tables.specs.BufferLayout.{rows_of};
    ghost use Rattle.pipe_tables.specs.BufferLayout.{rows_of};
    ghost use Rattle.pipe_tables.specs.Buffers.{AreBuffers, Buffers};

    ghost Value = { Buffers };

    ghost view = { λ a. record {
      size = a.buffer_size;
      rows = rows_of a.buffers.items;
    } };

    ghost invariant = { λ a. AreBuffers (record {
      size = a.buffer_size;
      rows = rows_of a.buffers.items;
    }) };
}

impl SpillPartitions {
    /// So many buffers of a size, which take memory as rows come.
    pub fn new(
        alloc: Global,
        partitions: usize,
        buffer_size: usize,
    ) -> Result<SpillPartitions, AllocError>
        requires partitions { 0 < partitions }
        requires buffer { 0 < buffer_size }
        ensures size { IfOk result (λ b. b.size ≡ buffer_size) }
        ensures rows { IfOk result (λ b. b.rows ≡ no_rows partitions) }
        ensures buffers { IfOk result (λ b. AreBuffers b) }
    {
        let mut buffers = Vec::with_capacity(alloc, partitions)?;
        for _ in 0..partitions {
            buffers.push(Vec::new(alloc))?;
        }
        Ok(SpillPartitions {
            buffers,
            buffer_size,
        })
    }

    /// Empty buffers of the same size and number.
    pub(crate) fn split(&self) -> Result<SpillPartitions, AllocError>
        ensures size { IfOk result (λ b. b.size ≡ self.now.size) }
        ensures rows { IfOk result (λ b. b.rows ≡ no_rows (length self.now.rows)) }
        ensures buffers { IfOk result (λ b. AreBuffers b) }
    {
        SpillPartitions::new(self.alloc(), self.buffers.len(), self.buffer_size)
    }

    /// What memory is taken of.
    pub(crate) fn alloc(&self) -> Global {
        *self.buffers.allocator()
    }

    /// The partition of a key.
    #[inline(always)]
    pub(crate) fn partition(&self, key: &[u8]) -> usize
        ensures { result ≡ buffer_of key.now self.now }
    {
        partition_of(key, self.buffers.len())
    }

    /// Puts a row behind those of its key's partition. Where it fills the buffer, the rows leave.
    pub fn insert(&mut self, row: SpillRow) -> LocalEnd
        ensures taken { is_taken result ≡ true → self.new ≡ buffered row self.old }
        ensures payload { is_taken result ≡ true → left_by result ≡ leaving row self.old }
        ensures memory { (r : SpillRow) → result ≡ LocalEnd.Memory r
            → (r ≡ row) × (self.new ≡ self.old) }
        ensures buffers { AreBuffers self.new }
    {
        let partition = self.partition(row.key.as_slice());
        self.insert_at(partition, row)
    }

    /// Puts a row behind those of a partition, which is its key's. Where it fills the buffer, the rows
    /// leave.
    #[inline(always)]
    pub(crate) fn insert_at(&mut self, partition: usize, row: SpillRow) -> LocalEnd
        requires { partition ≡ buffer_of row.key self.old }
        ensures taken { is_taken result ≡ true → self.new ≡ buffered row self.old }
        ensures payload { is_taken result ≡ true → left_by result ≡ leaving row self.old }
        ensures memory { (r : SpillRow) → result ≡ LocalEnd.Memory r
            → (r ≡ row) × (self.new ≡ self.old) }
        ensures buffers { AreBuffers self.new }
    {
        match push_at(&mut self.buffers, partition, row) {
            Err(row) => LocalEnd::Memory(row),
            Ok(count) if count < self.buffer_size => LocalEnd::Done,
            Ok(_) => {
                let rows = take_at(&mut self.buffers, partition, self.buffer_size);
                LocalEnd::Payload(partition, SpillPayload { rows })
            }
        }
    }

    /// How many rows wait in a partition.
    pub fn waiting(&self, partition: usize) -> usize
        requires { partition < length self.now.rows }
        ensures { result ≡ length (waiting_in partition self.now) }
    {
        self.buffers[partition].len()
    }

    /// Takes the rows that wait in a partition, if there are any.
    pub fn rest(&mut self, partition: usize) -> Option<SpillPayload>
        requires { partition < length self.old.rows }
        ensures none { IsNone result ↔ (waiting_in partition self.old ≡ []) }
        ensures rows { IfSome result (λ payload. payload.rows ≡ waiting_in partition self.old) }
        ensures emptied { self.new ≡ with_rows partition [] self.old }
        ensures buffers { AreBuffers self.new }
    {
        let rows = take_at(&mut self.buffers, partition, 0);
        if rows.is_empty() {
            return None;
        }
        Some(SpillPayload { rows })
    }

    /// Takes the rows that wait in each partition where some do, in order.
    pub(crate) fn take_rests(&mut self) -> Result<Vec<(usize, SpillPayload)>, AllocError>
        ensures rests { IfOk result (λ list. map rows_left list.items ≡ rests self.old) }
        ensures emptied { OnOk result (self.new ≡ with_none self.old) }
        ensures err { OnErr result (self.new ≡ self.old) }
        ensures buffers { AreBuffers self.new }
    {
        let mut list = Vec::with_capacity(self.alloc(), self.buffers.len())?;
        for partition in 0..self.buffers.len() {
            if let Some(payload) = self.rest(partition) {
                list.push_reserved((partition, payload));
            }
        }
        Ok(list)
    }
}

/// Puts a row behind those of a buffer, and says how many there are then.
fn push_at(
    buffers: &mut Vec<Vec<SpillRow>>,
    partition: usize,
    row: SpillRow,
) -> Result<usize, SpillRow>
    requires { partition < vec_len buffers.old }
    ensures ok { OnOk result (rows_of buffers.new.items ≡ slice_set (rows_of buffers.old.items)
        partition (slice_index_or (rows_of buffers.old.items) partition [] ++ row ∷ [])) }
    ensures count { IfOk result (λ n. n
        ≡ length (slice_index_or (rows_of buffers.old.items) partition [] ++ row ∷ [])) }
    ensures err { OnErr result (rows_of buffers.new.items ≡ rows_of buffers.old.items) }
    ensures row { IfErr result (λ r. r ≡ row) }
{
    let buffer = &mut buffers[partition];
    match buffer.push(row) {
        Ok(()) => Ok(buffer.len()),
        Err(failed) => Err(failed.value),
    }
}

/// No rows, with room for so many where memory can be had.
fn room_for(alloc: Global, rows: usize) -> Vec<SpillRow>
    ensures { result.items ≡ [] }
{
    match Vec::with_capacity(alloc, rows) {
        Ok(none) => none,
        Err(AllocError) => Vec::new(alloc),
    }
}

/// Takes the rows of a buffer, which is then empty, with room for so many where memory can be had.
fn take_at(buffers: &mut Vec<Vec<SpillRow>>, partition: usize, room: usize) -> Vec<SpillRow>
    requires { partition < vec_len buffers.old }
    ensures taken { result.items ≡ slice_index_or (rows_of buffers.old.items) partition [] }
    ensures emptied { rows_of buffers.new.items
        ≡ slice_set (rows_of buffers.old.items) partition [] }
{
    let alloc = *buffers.allocator();
    mem::replace(&mut buffers[partition], room_for(alloc, room))
}
