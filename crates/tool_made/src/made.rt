//! Rows that are generated.

/// Rows that are generated from a seed, so many, and how many of them a chunk has.
#[derive(Clone, Copy, Drop)]
pub struct Made {
    pub seed: u32,
    pub rows: u32,
    /// At least 1.
    pub chunk: usize,
}
