//! Rows of frames as lines of a text.
#![tactic(auto)]

mod all_lines;
mod laws;
mod lines;

pub use all_lines::add_all_lines;
pub use laws::lines_are_stacked;
pub use lines::{Lines, Piece};
