//! The sink and the numbers of a run.

/// How the keys of a run are kept.
#[derive(Clone, Copy, Debug, PartialEq, Eq)]
pub enum SinkKind {
    /// Keys of every kind; what a worker doesn't keep overflows.
    Generic,
    /// One key of an integer type; each worker keeps all keys.
    Primitive,
    /// One key that is a text; each worker keeps all keys.
    Text,
}

/// The sink and the numbers of a run.
#[derive(Drop)]
pub struct Limits {
    pub sink: SinkKind,
    /// How many workers take turns.
    pub workers: usize,
    /// How many partitions the keys fall in.
    pub partitions: usize,
    /// A worker keeps one key more than this.
    pub spill_size: usize,
    /// How many rows of a partition a worker sends at once.
    pub buffer_size: usize,
    /// A dump puts a frame where more pieces wait than this.
    pub payload_limit: usize,
}
