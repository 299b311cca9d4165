//! The answer to one command on a summary: from its words and the store that was opened to what the
//! store tells then, the bytes of its output, its line and its exit status.
#![tactic(auto)]

mod answer;
mod fault;
mod line;
mod on_store;
mod status;
mod summary;

pub use summary::run_summary;
