//! What is run.

use pipe_aggs::Query;
use pipe_columns::Text;

/// A query over files, and how it is run.
#[derive(Drop)]
pub struct Job {
    pub query: Query,
    /// The names of files; `-` is standard input.
    pub files: Vec<Text>,
    /// How many workers take turns.
    pub workers: usize,
    /// How many partitions the keys fall in.
    pub partitions: usize,
    /// The folder of spilled rows, where there is one.
    pub spill_dir: Option<Text>,
}
