//! How many chunks were taken.

ghost use Rattle.std.specs.Prelude.{◌≡◌, ◌+◌, ◌<◌, ◌^◌, true, false};
ghost use Rattle.memory_runs.specs.Counts.{HasRoom};

use pipe_columns::DataChunk;

/// There are at most so many chunks, and so many rows of them all together.
const MOST: u64 = u32::MAX as u64;

/// How many chunks were taken, and how many rows they have.
#[derive(Clone, Copy)]
pub(crate) struct Counted {
    pub(crate) chunks: u64,
    pub(crate) rows: u64,
}

impl Counted {
    /// No chunk was taken.
    pub(crate) fn none() -> Counted
        ensures { result ≡ record { chunks = 0; rows = 0 } }
    {
        Counted { chunks: 0, rows: 0 }
    }

    /// Whether there is room for one chunk more.
    pub(crate) fn has_room(self, chunk: &DataChunk) -> bool
        requires rows { self.rows < 2 ^ 32 }
        ensures room { result ≡ true → HasRoom self chunk.now }
        ensures none { result ≡ false → HasRoom self chunk.now → ⊥ }
    {
        chunk.frame.height() as u64 <= MOST - self.rows && self.chunks < MOST
    }

    /// One chunk more was taken.
    pub(crate) fn with(self, chunk: &DataChunk) -> Counted
        requires { HasRoom self chunk.now }
        ensures { result ≡ record {
          chunks = self.chunks + 1;
          rows = self.rows + chunk.now.frame.height;
        } }
    {
        Counted {
            chunks: self.chunks + 1,
            rows: self.rows + chunk.frame.height() as u64,
        }
    }
}
