//! How a source reads.

use pipe_columns::Text;

/// How files of CSV are read.
#[derive(Drop)]
pub struct CsvReadOptions {
    /// The most rows of a chunk.
    pub chunk_size: usize,
    /// The most rows that are read of all files together, where there is a limit.
    pub n_rows: Option<usize>,
    /// The name of a column in front of the others, which numbers the rows of all files, and the
    /// first number.
    pub row_index: Option<(Text, u32)>,
    /// The name of a column behind the others, which has the name of the row's file.
    pub include_file_path: Option<Text>,
}
