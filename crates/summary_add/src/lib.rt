//! Files that are added to a summary: their chunks are read in rounds and fed to one addition.
#![tactic(auto)]

mod add_fault;
mod feed_left;
mod files;
mod next_round;

pub use add_fault::AddFault;
pub use files::add_files;
