//! A writer of CSV.

ghost use Rattle.std.specs.Prelude.{◌≡◌, ◌++◌, List, ℕ};
ghost use Rattle.pipe_writers.specs.CsvLines.{csv_head, csv_line};
ghost use Rattle.pipe_lines.specs.Rows.{names_of};
ghost use Rattle.pipe_writers.specs.Writers.{no_writer_calls};

use crate::csv_lines::CsvLines;
use crate::line_writer::LineWriter;
use pipe_columns::Schema;
use pipe_io::Output;
use std::alloc::Global;

/// Writes frames as CSV. A line of the names goes out before the first batch, or at the finish
/// where none came.
pub type CsvBatchedWriter<O> = LineWriter<O, CsvLines>;

impl<O: Output> LineWriter<O, CsvLines> {
    /// A writer to which no call was made; it writes no line of names without `include_header`.
    pub fn new(
        alloc: Global,
        output: O,
        schema: Schema,
        include_header: bool,
    ) -> CsvBatchedWriter<O>
        ensures output { result.output ≡ output }
        ensures schema { result.lines.schema ≡ schema }
        ensures header { result.lines.include_header ≡ include_header }
        ensures calls { result.calls ≡ no_writer_calls }
    {
        let lines = CsvLines {
            schema,
            include_header,
        };
        LineWriter::of_lines(alloc, output, lines)
    }
}
