//! Chunks at their positions in a run.

ghost use Rattle.std.specs.Prelude.{◌≡◌, ◌+◌, ◌≤◌, ◌^◌, length};
ghost use Rattle.pipe_group_by.specs.Positions.{numbered};

use pipe_columns::DataChunk;

/// Gives chunks their positions as indices, from one on, whatever their indices were.
fn set_positions(chunks: &mut [DataChunk], first: usize)
    requires { first + length chunks.old ≤ 2 ^ 32 }
    ensures { chunks.new ≡ numbered first chunks.old }
{
    for number in 0..chunks.len() {
        chunks[number].chunk_index = (first + number) as u32;
    }
}

/// Chunks at their positions, from one on.
pub(crate) fn at_positions(mut chunks: Vec<DataChunk>, first: usize) -> Vec<DataChunk>
    requires { first + length chunks.items ≤ 2 ^ 32 }
    ensures { result.items ≡ numbered first chunks.items }
{
    set_positions(&mut chunks, first);
    chunks
}
