//! The chunks of one round.

ghost use Rattle.std.specs.Prelude.{◌≡◌, ◌+◌, ◌-◌, ◌<◌, ◌≤◌, ◌^◌, IfOk, Ok, map, min, slice_index_or, vec_len, ℕ};
ghost use Rattle.tool_made.specs.Made.{chunk_count, made_chunk, made_from};

use crate::columns::frame;
use crate::made::Made;
use pipe_columns::DataChunk;
use std::alloc::{AllocError, Global};
use std::thread::{self, Threads};

impl Made {
    /// How many chunks the rows make.
    pub fn chunks(&self) -> usize
        requires some { 0 < self.now.chunk }
        ensures count { result ≡ chunk_count self.now }
        ensures few { self.now.rows < 2 ^ 32 }
    {
        (self.rows as usize).div_ceil(self.chunk)
    }

    /// The chunk so many behind a position.
    #[tactic(auto, using(crate::proofs::MadeFacts::begins_inside))]
    fn chunk_behind(&self, alloc: Global, from: usize, more: usize) -> Result<DataChunk, AllocError>
        requires some { 0 < self.now.chunk }
        requires there { from + more < chunk_count self.now }
        ensures { IfOk result (λ c. c ≡ made_chunk self.now (from + more)) }
    {
        let position = from + more;
        let first = position * self.chunk;
        let count = self.chunk.min(self.rows as usize - first);
        Ok(DataChunk {
            chunk_index: position as u32,
            frame: frame(alloc, self.seed, first as u64, count)?,
        })
    }
}

/// Tries to make so many chunks from a position on, each in a thread of its own where one can be had.
fn tries<H: Threads + Sync>(
    rt: &H,
    alloc: Global,
    made: &Made,
    first: usize,
    count: usize,
) -> Result<Vec<Result<DataChunk, AllocError>>, AllocError>
    requires some { 0 < made.now.chunk }
    requires there { first + count ≤ chunk_count made.now }
    ensures count { IfOk result (λ v. vec_len v ≡ count) }
    ensures each { IfOk result (λ v. (i : ℕ) (d : _) → i < count
        → IfOk (slice_index_or v.items i d) (λ c. c ≡ made_chunk made.now (first + i))) }
{
    thread::map_indices(rt, alloc, count, &|i| made.chunk_behind(alloc, first, i))
}

/// The chunks of tries that all succeeded.
fn had(
    alloc: Global,
    tries: Vec<Result<DataChunk, AllocError>>,
) -> Result<Vec<DataChunk>, AllocError>
    ensures { IfOk result (λ v. map Ok v.items ≡ tries.items) }
{
    let mut chunks = Vec::with_capacity(alloc, tries.len())?;
    for chunk in tries {
        if chunks.push(chunk?).is_err() {
            return Err(AllocError);
        }
    }
    Ok(chunks)
}

/// So many chunks from a position on, each made in a thread of its own where one can be had.
#[tactic(auto, using(crate::proofs::MadeFacts::chunks_had))]
pub fn made_round<H: Threads + Sync>(
    rt: &H,
    alloc: Global,
    made: &Made,
    first: usize,
    count: usize,
) -> Result<Vec<DataChunk>, AllocError>
    requires some { 0 < made.now.chunk }
    requires there { first + count ≤ chunk_count made.now }
    ensures { IfOk result (λ v. v.items ≡ made_from made.now first count) }
{
    had(alloc, tries(rt, alloc, made, first, count)?)
}
