//! What gathers chunks and writes frames: sinks that keep chunks in their order, and writers of CSV
//! and of lines of JSON.
#![tactic(auto)]

mod chunk_order;
mod column_room;
mod csv_lines;
mod csv_record;
mod csv_writer;
mod frame_room;
mod frame_writer;
mod json_lines;
mod json_plain;
mod json_value;
mod json_writer;
mod kept_chunks;
mod laws;
mod line_writer;
mod ordered_sink;
mod schema_copy;
mod sink_writer;
mod slice_sink;
mod stack;
mod text_lines;
mod text_writer;
mod vstacker;
mod worked;
mod write_error;

pub use chunk_order::sort_by_number;
pub use csv_lines::CsvLines;
pub use csv_writer::CsvBatchedWriter;
pub use frame_writer::{write_csv, write_json};
pub use json_lines::JsonLines;
pub use json_writer::JsonBatchedWriter;
pub use ordered_sink::OrderedSink;
pub use pipe_lines::{Lines, Piece};
pub use schema_copy::copy_schema;
pub use sink_writer::{SinkWriter, WriterCalls};
pub use slice_sink::SliceSink;
pub use text_lines::TextLines;
pub use text_writer::write_texts;
pub use vstacker::StreamingVstacker;
pub use write_error::WriteError;
