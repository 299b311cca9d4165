//! Marks of frames.

/// Which number a frame that was put has in the store, and how many rows.
#[derive(Clone, Copy, Debug)]
pub struct Mark {
    pub number: u64,
    pub rows: u64,
}
