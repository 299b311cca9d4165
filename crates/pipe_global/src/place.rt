//! What a partition takes memory for before its first event.

use pipe_tables::AggHashTable;

/// What a partition takes memory for before its first event.
#[derive(Drop)]
pub(crate) struct Place {
    pub(crate) table: AggHashTable,
    pub(crate) book: Vec<u64>,
}
