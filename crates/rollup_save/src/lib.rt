//! States of files, saved: their chunks are read in rounds and fed to a state in the making, whose
//! bytes are then written.
#![tactic(auto)]

mod feed_left;
mod files;
mod laws;
mod left;
mod next_round;
mod reader;
mod text;

pub use files::{CHUNK_ROWS, save_files};
pub use left::save_left;
