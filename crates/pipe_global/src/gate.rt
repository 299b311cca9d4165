//! What learns that a worker stands inside a partition.

/// It is called once in each event, while the partition's lock is held.
pub trait Gate {
    /// The worker stands inside the partition.
    fn inside(&self, worker: usize, partition: usize);
}

/// A gate that returns at once.
#[derive(Debug, Drop)]
pub struct OpenGate;

impl Gate for OpenGate {
    fn inside(&self, _worker: usize, _partition: usize) {}
}
