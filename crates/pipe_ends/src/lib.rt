//! Where chunks come from and where frames go: named files that are read, CSV, and outputs that are
//! written.
#![tactic(auto)]

pub use pipe_csv::{CsvError, frame_text};
pub use pipe_files_sink::{
    CsvSink, CsvWriterOptions, FilesSender, FilesSink, JsonSink, JsonWriterOptions, WriterCore,
};
pub use pipe_io::{
    FileEnd, InputError, InputFiles, MOST_FILE_BYTES, MemoryFiles, MemoryOutput, Output,
    OutputError, RealFiles, RealOutput, TriedNames, read_file, write_all,
};
pub use pipe_source::{ChunkReader, CsvReadOptions, CsvSource, SourcePlace};
pub use pipe_writers::{
    CsvBatchedWriter, JsonBatchedWriter, OrderedSink, SinkWriter, SliceSink, StreamingVstacker,
    WriteError, write_csv, write_json,
};
