//! What reads the files of a plan.

ghost use Rattle.std.specs.Prelude.{◌≡◌, ◌<◌, ◌≤◌, IfOk, length, vec_len};
ghost use Rattle.pipe_io.specs.Files.{Files};
ghost use Rattle.pipe_source.specs.CsvChunks.{csv_chunks, wanted_chunks};
ghost use Rattle.pipe_source.specs.Reader.{given_fields, chunks_left};
ghost use Rattle.narrow_columns.specs.Wanted.{chosen};
ghost use Rattle.tool_words.specs.Asked.{files_named};

use pipe_columns::{Schema, Text};
use pipe_source::{ChunkReader, CsvReadOptions};
use std::alloc::{AllocError, Global};

/// The names of the files that words ask for: those behind the query, or standard input.
fn files_named(alloc: Global, mut words: Vec<Text>) -> Result<Vec<Text>, AllocError>
    ensures { IfOk result (λ v. v.items ≡ files_named words.items) }
{
    if words.is_empty() {
        return Ok(words);
    }
    let _query = words.remove(0);
    if words.is_empty() {
        words.push(Text::new(alloc, "-")?)?;
    }
    Ok(words)
}

/// What reads the files that words ask for, in chunks of so many rows and of the wanted columns alone,
/// up to a limit of rows.
pub fn reader_of(
    alloc: Global,
    words: Vec<Text>,
    schema: Schema,
    wanted: Vec<bool>,
    chunk: usize,
    rows: Option<usize>,
) -> Result<ChunkReader, AllocError>
    requires size { 0 < chunk }
    requires wanted { vec_len wanted ≤ length schema }
    ensures left { IfOk result (λ r. (files : Files) → chunks_left files r
        ≡ wanted_chunks r.options wanted.items
        (csv_chunks files (files_named words.items) schema r.options)) }
    ensures names { IfOk result (λ r. r.names ≡ files_named words.items) }
    ensures schema { IfOk result (λ r. r.schema ≡ schema) }
    ensures fields { IfOk result (λ r. given_fields r ≡ chosen wanted.items schema) }
    ensures options { IfOk result (λ r. r.options ≡ record {
      chunk_size = chunk;
      n_rows = rows;
      row_index = None;
      include_file_path = None;
    }) }
{
    let names = files_named(alloc, words)?;
    let options = CsvReadOptions {
        chunk_size: chunk,
        n_rows: rows,
        row_index: None,
        include_file_path: None,
    };
    ChunkReader::of_columns(alloc, names, schema, options, wanted)
}
