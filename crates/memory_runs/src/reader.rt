//! What reads a text.

ghost use Rattle.std.specs.Prelude.{◌≡◌, ◌∷◌, ◌≤◌, [], IfOk, length, vec_len};
ghost use Rattle.narrow_columns.specs.Wanted.{chosen};
ghost use Rattle.pipe_io.specs.Files.{Files};
ghost use Rattle.pipe_source.specs.CsvChunks.{csv_chunks, wanted_chunks};
ghost use Rattle.pipe_source.specs.Reader.{chunks_left, given_fields};
ghost use Rattle.memory_runs.specs.TextRuns.{text_name, text_options};

use pipe_columns::{Schema, Text};
use pipe_source::{ChunkReader, CsvReadOptions};
use std::alloc::{AllocError, Global};

/// The most rows of a chunk.
pub const CHUNK_ROWS: usize = 50_000;

/// The name of the file that a text in memory is.
pub fn name_of_text(alloc: Global) -> Result<Text, AllocError>
    ensures { IfOk result (λ t. t ≡ text_name) }
{
    Text::new(alloc, "text")
}

/// What reads the wanted columns of a text, which has a schema.
pub fn reader_of(
    alloc: Global,
    schema: Schema,
    wanted: Vec<bool>,
) -> Result<ChunkReader, AllocError>
    requires wanted { vec_len wanted ≤ length schema }
    ensures left { IfOk result (λ r. (files : Files) → chunks_left files r
        ≡ wanted_chunks text_options wanted.items
        (csv_chunks files (text_name ∷ []) schema text_options)) }
    ensures fields { IfOk result (λ r. given_fields r ≡ chosen wanted.items schema) }
{
    let options = CsvReadOptions {
        chunk_size: CHUNK_ROWS,
        n_rows: None,
        row_index: None,
        include_file_path: None,
    };
    let mut names = Vec::with_capacity(alloc, 1)?;
    names.push(name_of_text(alloc)?)?;
    ChunkReader::of_columns(alloc, names, schema, options, wanted)
}
