//! Writers that are fed chunks: in the caller, or in a thread of their own.
#![tactic(auto)]

mod chunk_way;
mod csv_sink;
mod files_sender;
mod files_sink;
mod guarded_core;
mod joined_writer;
mod json_sink;
mod own_core;
mod writer_core;

pub use csv_sink::{CsvSink, CsvWriterOptions};
pub use files_sender::FilesSender;
pub use files_sink::FilesSink;
pub use guarded_core::GuardedCore;
pub use json_sink::{JsonSink, JsonWriterOptions};
pub use writer_core::WriterCore;
