//! How far the reading of files is.

/// A place in all files: the number of a file, counted from 1, and how many chunks and rows come
/// before.
#[derive(Clone, Copy, Drop)]
pub struct SourcePlace {
    pub file: usize,
    pub chunks: u128,
    pub rows: u128,
}
