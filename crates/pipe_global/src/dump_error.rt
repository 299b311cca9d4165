//! Why a dump was refused.

/// Why a dump was refused.
#[derive(Debug, Drop, PartialEq, Eq)]
pub enum DumpError {
    /// The store failed.
    Store,
    /// Memory ran out.
    Memory,
}
