//! What the words of a command say.

use pipe_columns::Text;
use pipe_plan::{Limits, SpillAction};

/// How the answer is written.
#[derive(Clone, Copy, Debug, PartialEq, Eq)]
pub enum Format {
    Csv,
    /// Lines of JSON.
    Json,
}

/// What the words of a command say: its options, and the words that belong to none.
#[derive(Drop)]
pub struct Plan {
    pub limits: Limits,
    /// The most rows of a chunk.
    pub chunk: usize,
    /// What follows the first turns of each worker.
    pub actions: Vec<Vec<SpillAction>>,
    /// What follows each further turn of each worker.
    pub rules: Vec<SpillAction>,
    /// The folder of spilled frames, where they don't stay in memory.
    pub spill_dir: Option<Text>,
    /// The most rows that are read of all files together, where there is a limit; or how many rows are
    /// generated.
    pub rows: Option<usize>,
    pub format: Format,
    /// The seed of generated rows, where no file is read.
    pub generate: Option<u32>,
    /// The query, and the names of files; none beside generated rows.
    pub words: Vec<Text>,
}
