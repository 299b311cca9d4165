//! What words ask.

use crate::asked_column::AskedColumn;
use pipe_columns::Text;
use pipe_words::Format;

/// The order of shown rows.
#[derive(Clone, Copy, Debug, PartialEq, Eq)]
pub enum Order {
    /// By their keys.
    Key,
    /// By their first rows.
    First,
    /// By the shown column at a place, upwards.
    Up(usize),
    /// The same downwards.
    Down(usize),
}

/// Columns that are asked for.
#[derive(Debug, Drop)]
pub struct Columns {
    /// What is shown: the keys, and then the others.
    pub columns: Vec<AskedColumn>,
    pub order: Order,
    /// How many rows are left out at the front.
    pub offset: usize,
    /// How many rows are shown at most.
    pub limit: Option<usize>,
}

/// What is asked.
#[derive(Debug, Drop)]
pub enum Question {
    /// The query that stands in a file.
    File(Text),
    /// Columns.
    Columns(Columns),
}

/// What is asked, of which files, and how it is answered.
#[derive(Debug, Drop)]
pub struct Asked {
    pub question: Question,
    pub format: Format,
    /// How many workers there are, where it is said.
    pub workers: Option<usize>,
    pub partitions: usize,
    /// The folder of spilled rows, where there is one.
    pub spill_dir: Option<Text>,
    /// The names of files; `-` is standard input.
    pub files: Vec<Text>,
}
