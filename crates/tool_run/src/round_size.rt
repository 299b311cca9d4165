//! How many chunks a round has.

ghost use Rattle.std.specs.Prelude.{◌<◌};

/// A worker that is alone is fed so many rows at a time: their values are then still near to the processor.
const ROWS_ALONE: usize = 8_192;

/// Several workers wait for one another once a round, so each gets so many rows.
const ROWS_OF_WORKER: usize = 100_000;

/// The most chunks of a worker in a round, where they are small.
const MOST_OF_WORKER: usize = 4;

/// How many chunks are read or made before they are fed to so many workers, where a chunk has so many rows.
pub fn chunks_of_round(workers: usize, chunk_rows: usize) -> usize
    requires { 0 < workers }
    ensures { 0 < result }
{
    let rows = if workers == 1 {
        ROWS_ALONE
    } else {
        ROWS_OF_WORKER
    };
    let chunks = (rows / chunk_rows.max(1)).max(1).min(MOST_OF_WORKER);
    workers.saturating_mul(chunks)
}
