//! What the words of a command say: its options, and the words that belong to none.
#![tactic(auto)]

mod actions;
mod command;
mod numbers;
mod options;
mod plan;
mod rows;
mod words;

pub use plan::{Format, Plan};
pub use words::read_words;
