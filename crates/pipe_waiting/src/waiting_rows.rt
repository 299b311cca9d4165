//! Rows that wait, one behind another, as bytes.

ghost use Rattle.std.specs.Prelude.{◌≡◌, ◌≤◌, ◌+◌, ◌*◌, ◌++◌, ◌==◌, [], IfOk, List, OnErr, OnOk, length};
ghost use Rattle.std.specs.Int.{bytes_high_first};
ghost use Rattle.pipe_columns.specs.declared.data_type.DataType.{DataType};
ghost use Rattle.pipe_spill.specs.FrameBytes.{frame_bytes};
ghost use Rattle.pipe_waiting.specs.Waiting.{AreWaiting, WaitAsBefore, waiting_rows};

use std::alloc::{AllocError, Global};
use std::marker::Model;

/// The fewest bytes that a row takes: those of its place and of the length of its key.
pub(crate) const LEAST_ROW: usize = 16;

/// Rows that wait, as the bytes that they have in their frame. Contracts see how many they are, the
/// bytes, and for how many bytes there is room.
#[derive(Debug, Drop)]
pub struct WaitingRows {
    pub(crate) count: usize,
    pub(crate) bytes: Vec<u8>,
}

impl Model for WaitingRows {
    ghost use Rattle.std.specs.Prelude.{◌≤◌, ◌*◌, length, vec_capacity};
    ghost use Rattle.pipe_waiting.specs.Waiting.{Waiting};

    ghost Value = { Waiting };

    ghost view = { λ w. record {
      count = w.count;
      bytes = w.bytes.items;
      room = vec_capacity w.bytes;
    } };

    ghost invariant = { λ w. w.count * 16 ≤ length w.bytes.items };
}

impl WaitingRows {
    /// No rows, which take no memory.
    pub fn new(alloc: Global) -> WaitingRows
        ensures count { result.count ≡ 0 }
        ensures bytes { result.bytes ≡ [] }
        ensures typed { (types : List DataType) → AreWaiting types result }
    {
        WaitingRows {
            count: 0,
            bytes: Vec::new(alloc),
        }
    }

    /// How many rows there are.
    pub fn len(&self) -> usize
        ensures { result ≡ self.now.count }
    {
        self.count
    }

    /// Whether there are none.
    pub fn is_empty(&self) -> bool
        ensures { result ≡ (self.now.count == 0) }
    {
        self.count == 0
    }

    /// The bytes, lent: those of the frame of the rows, behind the number of them.
    pub fn bytes(&self) -> &[u8]
        ensures bytes { result.now ≡ self.now.bytes }
        ensures frame { (types : List DataType) → AreWaiting types self.now
            → bytes_high_first 8 self.now.count ++ result.now
            ≡ frame_bytes types (waiting_rows types self.now) }
    {
        &self.bytes
    }

    /// The frame of the rows, in one allocation.
    pub fn frame(&self, alloc: Global) -> Result<Vec<u8>, AllocError>
        ensures { IfOk result (λ frame. (types : List DataType) → AreWaiting types self.now
            → frame.items ≡ frame_bytes types (waiting_rows types self.now)) }
    {
        let mut frame = Vec::with_capacity(alloc, self.bytes.len().saturating_add(8))?;
        frame.extend_from_slice(&(self.count as u64).to_be_bytes())?;
        frame.extend_from_slice(&self.bytes)?;
        Ok(frame)
    }

    /// Lets the rows go. The room stays.
    pub fn clear(&mut self)
        ensures count { self.new.count ≡ 0 }
        ensures bytes { self.new.bytes ≡ [] }
        ensures typed { (types : List DataType) → AreWaiting types self.new }
        ensures room { self.new.room ≡ self.old.room }
    {
        self.count = 0;
        self.bytes.clear();
    }

    /// Gives memory back until at most a quarter of what the rows take is free. It is refused where
    /// a smaller block can't be had.
    pub fn shrink(&mut self) -> Result<(), AllocError>
        ensures slack { OnOk result (self.new.room * 4 ≤ length self.new.bytes * 5) }
        ensures rows { WaitAsBefore self.old self.new }
        ensures room { self.new.room ≤ self.old.room }
    {
        let len = self.bytes.len();
        if self.bytes.capacity() - len > len / 4 {
            self.bytes.shrink_to_fit();
        }
        if self.bytes.capacity() - len > len / 4 {
            Err(AllocError)
        } else {
            Ok(())
        }
    }
}
