//! A worker between two rounds.

use pipe_local::WorkerTable;

/// What a worker keeps between two rounds: its local table, and how many turns and picks it made.
#[derive(Drop)]
pub struct PausedWorker {
    pub table: WorkerTable,
    pub turns: usize,
    pub picks: usize,
}
