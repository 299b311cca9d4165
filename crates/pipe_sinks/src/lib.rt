//! Sinks for one key of an integer type or of texts, and slices over partitions.
#![tactic(auto)]

mod add_chunk;
mod by_value;
mod cover_lent;
mod key_runs;
mod key_sink;
mod key_table;
mod laws;
mod paused;
mod run_finish;
mod run_sink;
mod secret_lead;
mod sink_run;
mod slices;
mod sole_key;
mod sole_mark;
mod worked;

pub use key_sink::KeySink;
pub use laws::{chunks_without_rows_change_nothing, what_parts_keep};
pub use paused::PausedSink;
pub use sink_run::SinkRun;
pub use slices::{compute_slices, default_slices};
pub use sole_key::{
    KeyNumber, NumberKey, PrimitiveGroupbySink, SoleKey, StringGroupbySink, TextKey, has_sole_key,
};
