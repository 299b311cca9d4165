//! Chunks: frames that are pieces of an input.

use crate::data_frame::DataFrame;

/// A frame that is one piece of an input, with its number there.
#[derive(Drop)]
pub struct DataChunk {
    pub chunk_index: u32,
    pub frame: DataFrame,
}
