//! States of chunks: what the groups of their rows come to, to be saved.
#![tactic(auto)]

mod at_once;
mod chunk_check;
mod extent;
mod fed_groups;
mod rows;
mod save_error;
mod saving;

pub use at_once::save;
pub use save_error::SaveError;
pub use saving::Saving;
