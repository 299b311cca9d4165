//! A log of frames, and a store that keeps its frames as a log in a file.
#![tactic(auto)]

mod entries;
mod fault;
mod find_ends;
mod kept_file;
mod laws;
mod log_file;
mod log_frames;
mod log_parts;
mod places;
mod take_entry;
mod worked;

pub use find_ends::MOST_LOG_BYTES;
pub use kept_file::KeptFile;
pub use log_file::LogFile;
pub use log_frames::LogFrames;
pub use log_parts::{LogParts, read_log};
