//! Why a run was refused.

ghost use Rattle.std.specs.Prelude.{◌≡◌};
ghost use Rattle.pipe_run.specs.Stops.{error_of_groups};

use pipe_aggs::QueryFault;
use pipe_global::BatchError;
use thiserror::Error;

/// Why a run was refused. It is shown as the program tells it.
#[derive(Debug, Drop, PartialEq, Eq, Error)]
pub enum PipeError {
    /// A limit is out of range, or lists of actions or stores are too few or too many for the limits,
    /// or a store has no numbers left for its frames.
    #[error("limits refused")]
    Limits,
    /// The query has a fault.
    #[error("query refused: {0:?}")]
    Query(QueryFault),
    /// The kind of sink doesn't fit the keys.
    #[error("sink does not fit")]
    Sink,
    /// The chunk at a position is the first that doesn't fit the query.
    #[error("chunk {chunk} does not fit")]
    Schema { chunk: usize },
    /// There are 2^32 rows or more, or as many chunks.
    #[error("too large")]
    TooLarge,
    /// The store of a partition failed.
    #[error("store {partition} failed")]
    Store { partition: usize },
    /// What a partition's store gave under a number is not the frame that was put.
    #[error("store {partition} frame {number} damaged")]
    Damaged { partition: usize, number: u64 },
    /// Memory ran out.
    #[error("out of memory")]
    Memory,
}

impl PipeError {
    /// The error of a run whose partitions give no groups.
    pub(crate) fn of_groups(error: BatchError) -> PipeError
        ensures { result ≡ error_of_groups error }
    {
        match error {
            BatchError::Store { partition } => PipeError::Store { partition },
            BatchError::Damaged { partition, number } => PipeError::Damaged { partition, number },
            BatchError::Memory => PipeError::Memory,
        }
    }
}
