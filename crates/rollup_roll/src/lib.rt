//! The states that files tell, rolled up by some keys.
#![tactic(auto)]

mod laws;
mod read_told;
mod roll;
mod roll_error;

pub use roll::roll_files;
pub use roll_error::RollError;
