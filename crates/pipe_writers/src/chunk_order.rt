//! Chunks by their numbers.

ghost use Rattle.std.specs.Prelude.{◌≡◌, OnErr, OnOk};
ghost use Rattle.std.specs.List.Sorted.{IsPermutation};
ghost use Rattle.pipe_writers.specs.WriteOrder.{by_number};

use pipe_columns::DataChunk;
use std::alloc::AllocError;

/// Sorts chunks by their numbers; those of one number stay in the order that they have.
pub fn sort_by_number(chunks: &mut Vec<DataChunk>) -> Result<(), AllocError>
    ensures ok { OnOk result (chunks.new.items ≡ by_number chunks.old.items) }
    ensures moved { IsPermutation chunks.old.items chunks.new.items }
    ensures err { OnErr result (chunks.new.items ≡ chunks.old.items) }
{
    chunks.sort_by_key(|chunk| chunk.chunk_index)?;
    Ok(())
}
