//! What follows a worker's turn, and what it does to a partition.

/// What follows the rows of a turn.
#[derive(Clone, Copy, Debug, PartialEq, Eq)]
pub enum SpillAction {
    /// The waiting pieces of a partition are merged into its table.
    EarlyMerge,
    /// The waiting pieces of a partition are put as one frame, where enough of them wait.
    Dump,
    /// Nothing follows.
    None,
}

/// What a worker did to a partition.
#[derive(Clone, Copy, Debug, PartialEq, Eq)]
pub enum PartitionEvent {
    /// Its next piece came to wait.
    Arrive { worker: usize },
    /// The waiting pieces were merged.
    Merge { worker: usize },
    /// The waiting pieces were put as one frame, where enough of them waited.
    Dump { worker: usize },
}
