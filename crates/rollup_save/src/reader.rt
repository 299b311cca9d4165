//! What reads the files that are saved.

ghost use Rattle.std.specs.Prelude.{◌≡◌, ◌≤◌, IfOk, length, vec_len};
ghost use Rattle.narrow_columns.specs.Wanted.{chosen};
ghost use Rattle.pipe_io.specs.Files.{Files};
ghost use Rattle.pipe_source.specs.CsvChunks.{csv_chunks, wanted_chunks};
ghost use Rattle.pipe_source.specs.Reader.{chunks_left, given_fields};
ghost use Rattle.rollup_save.specs.Saves.{save_options};

use crate::files::CHUNK_ROWS;
use pipe_columns::{Schema, Text};
use pipe_source::{ChunkReader, CsvReadOptions};
use std::alloc::{AllocError, Global};

/// What reads the wanted columns of files of some names, of which all have a schema.
pub(crate) fn reader_of(
    alloc: Global,
    names: Vec<Text>,
    schema: Schema,
    wanted: Vec<bool>,
) -> Result<ChunkReader, AllocError>
    requires wanted { vec_len wanted ≤ length schema }
    ensures left { IfOk result (λ r. (files : Files) → chunks_left files r
        ≡ wanted_chunks save_options wanted.items
        (csv_chunks files names.items schema save_options)) }
    ensures names { IfOk result (λ r. r.names ≡ names.items) }
    ensures fields { IfOk result (λ r. given_fields r ≡ chosen wanted.items schema) }
{
    let options = CsvReadOptions {
        chunk_size: CHUNK_ROWS,
        n_rows: None,
        row_index: None,
        include_file_path: None,
    };
    ChunkReader::of_columns(alloc, names, schema, options, wanted)
}
