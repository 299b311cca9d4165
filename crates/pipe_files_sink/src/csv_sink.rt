//! Sinks that write CSV.

ghost use Rattle.std.specs.Prelude.{◌≡◌, ◌<◌, ◌≤◌, IfOk, None};

use crate::files_sink::FilesSink;
use pipe_columns::Schema;
use pipe_io::Output;
use pipe_writers::CsvBatchedWriter;
use std::alloc::{AllocError, Global};
use std::sync::Wait;
use std::thread::Threads;

/// How a sink writes CSV.
#[derive(Debug, Drop, PartialEq, Eq)]
pub struct CsvWriterOptions {
    /// Whether a line of the names goes in front.
    pub include_header: bool,
    /// Whether each piece is written by the numbers of its chunks.
    pub maintain_order: bool,
    /// How many chunks are a piece.
    pub morsels_per_sink: usize,
}

/// Makes sinks that write CSV.
pub struct CsvSink;

impl CsvSink {
    /// A sink that took no chunk, for frames of a schema.
    pub fn new<O, H>(
        rt: H,
        alloc: Global,
        output: O,
        schema: Schema,
        options: CsvWriterOptions,
    ) -> Result<FilesSink<CsvBatchedWriter<O>, H>, AllocError>
    where
        O: Output + Drop + Send + 'static,
        H: Threads + Wait + Copy + Send + 'static,
        requires some { 0 < options.morsels_per_sink }
        requires few { options.morsels_per_sink ≤ 4096 }
        ensures schema { IfOk result (λ s. s.schema ≡ schema) }
        ensures output { IfOk result (λ s. s.made_of.output ≡ output) }
        ensures unended { IfOk result (λ s. s.ended ≡ None) }
    {
        let writer = CsvBatchedWriter::new(alloc, output, schema, options.include_header);
        FilesSink::new(
            rt,
            alloc,
            writer,
            options.maintain_order,
            options.morsels_per_sink,
        )
    }
}
