//! The query that a word of a command is as JSON, or why it is none, and how that is told.
#![tactic(auto)]

mod names;
mod no_query;
mod query_word;

pub use names::no_query_name;
pub use no_query::{NoQuery, QueryError};
pub use query_word::query_of_word;
