//! Why a worker stopped.

/// Why a worker stopped.
#[derive(Debug, Drop, PartialEq, Eq)]
pub enum WorkerStop {
    /// The store of a partition refused a put.
    Store { partition: usize },
    /// Memory ran out.
    Memory,
}
