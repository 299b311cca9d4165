//! A writer of lines of JSON.

ghost use Rattle.std.specs.Prelude.{◌≡◌};
ghost use Rattle.pipe_writers.specs.Writers.{no_writer_calls};

use crate::json_lines::JsonLines;
use crate::line_writer::LineWriter;
use pipe_columns::Schema;
use pipe_io::Output;
use std::alloc::Global;

/// Writes frames as lines of JSON.
pub type JsonBatchedWriter<O> = LineWriter<O, JsonLines>;

impl<O: Output> LineWriter<O, JsonLines> {
    /// A writer to which no call was made.
    pub fn new(alloc: Global, output: O, schema: Schema) -> JsonBatchedWriter<O>
        ensures output { result.output ≡ output }
        ensures schema { result.lines.schema ≡ schema }
        ensures calls { result.calls ≡ no_writer_calls }
    {
        let lines = JsonLines { alloc, schema };
        LineWriter::of_lines(alloc, output, lines)
    }
}
