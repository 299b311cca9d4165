//! Chunks that a sink may be fed.

ghost use Rattle.std.specs.Prelude.{IsTrue};
ghost use Rattle.pipe_files_sink.specs.Joined.{IsWritable};

use pipe_columns::{DataChunk, Schema};

/// How many chunks are a piece.
pub(crate) const MORSELS: usize = 16;

/// Whether a chunk fits a schema, and its rows can be joined with others.
pub(crate) fn is_taken(schema: &Schema, chunk: &DataChunk) -> bool
    ensures { IsTrue result → IsWritable schema.now chunk.now.frame }
{
    chunk.frame.fits(schema) && chunk.frame.height() <= 1 << 20
}
