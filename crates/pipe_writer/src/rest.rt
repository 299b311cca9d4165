//! What a sender kept.

use pipe_columns::DataChunk;

/// The chunks of a sender that its channel refused, with the number of the first of them among all
/// chunks of that sender.
#[derive(Drop)]
pub(crate) struct Rest {
    pub(crate) sender: usize,
    pub(crate) first: u64,
    pub(crate) chunks: Vec<DataChunk>,
}
