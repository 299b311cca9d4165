//! Summaries that grow: of chunks no row is kept but the states that they come to, an addition one
//! frame of a store.
#![tactic(auto)]

mod add;
mod add_error;
mod adding;
mod answer;
mod compact;
mod compact_error;
mod held_state;
mod held_states;
mod laws;
mod reached;
mod read_error;
mod reading;
mod rows;
mod summary;
mod worked;

pub use add_error::AddError;
pub use adding::Adding;
pub use compact_error::CompactError;
pub use read_error::{AnswerError, OpenError, ReadError};
pub use summary::Summary;
