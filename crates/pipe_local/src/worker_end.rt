//! How a row ends that comes to the table of a worker.

use pipe_waiting::WaitingRows;

/// How an insert of a row that is lent ends.
#[derive(Debug, Drop)]
pub enum WorkerEnd {
    /// The row was taken in.
    Done,
    /// It was taken in, and filled the buffer of a partition, whose rows leave.
    Payload(usize, WaitingRows),
    /// Memory was wanting.
    Memory,
}
