//! How many chunks and rows were read.

/// How many chunks were read, and how many rows they have.
#[derive(Drop, Clone, Copy)]
pub(crate) struct Counted {
    pub(crate) chunks: usize,
    pub(crate) rows: usize,
}
