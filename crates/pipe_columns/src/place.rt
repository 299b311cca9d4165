//! Places of rows.

/// Where a row stands: the position of its chunk and its number there. Places are ordered by chunk,
/// then row.
#[derive(Clone, Copy, Debug, PartialEq, Eq, PartialOrd, Ord)]
pub struct Place {
    pub chunk: u32,
    pub row: u32,
}
