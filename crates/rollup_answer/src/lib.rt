//! The answer to one command on saved states: from its words to the bytes of its output, its line
//! and its exit status.
#![tactic(auto)]

mod answer;
mod fault;
mod line;
mod rollup;
mod status;

pub use fault::{RollupFault, ask_fault, status_of};
pub use line::fault_line;
pub use rollup::run_rollup;
