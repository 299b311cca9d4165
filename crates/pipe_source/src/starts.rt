//! The places where the chunks of a text begin.

ghost use Rattle.std.specs.Prelude.{◌≡◌, ◌≤◌, ◌<◌, ◌+◌, [], ℕ, List, OnOk};
ghost use Rattle.pipe_source.specs.Rows.{IsStart};
ghost use Rattle.pipe_source.specs.Starts.{AreNoted};

use std::alloc::{AllocError, Global};

/// Where each chunk of so many rows begins, and how many rows are left of the last.
#[derive(Drop)]
pub(crate) struct Starts {
    pub(crate) size: usize,
    pub(crate) until: usize,
    pub(crate) places: Vec<usize>,
}

impl Starts {
    /// No row is noted yet.
    pub(crate) fn new(alloc: Global, size: usize) -> Starts
        ensures size { result.size ≡ size }
        ensures noted { (text : List ℕ) (at : ℕ) → AreNoted text at 0 result }
    {
        Starts {
            size,
            until: 0,
            places: Vec::new(alloc),
        }
    }

    /// One more row begins at a place.
    pub(crate) fn note(&mut self, place: usize) -> Result<(), AllocError>
        requires { 0 < self.old.size }
        ensures size { self.new.size ≡ self.old.size }
        ensures noted { OnOk result ((text : List ℕ) (at row : ℕ) → AreNoted text at row self.old
            → IsStart text at row place → AreNoted text at (row + 1) self.new) }
    {
        if self.until == 0 {
            self.places.push(place)?;
            self.until = self.size - 1;
        } else {
            self.until -= 1;
        }
        Ok(())
    }

    /// So many more rows, of which none begins a chunk.
    pub(crate) fn pass(&mut self, rows: usize)
        requires { rows ≤ self.old.until }
        ensures size { self.new.size ≡ self.old.size }
        ensures noted { (text : List ℕ) (at row : ℕ) → AreNoted text at row self.old
            → AreNoted text at (row + rows) self.new }
    {
        self.until -= rows;
    }
}
