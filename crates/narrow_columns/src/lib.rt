//! Columns that are wanted: schemas, frames and chunks of these alone.
#![tactic(auto)]

mod wanted;

pub use wanted::{chosen_schema, is_wanted};
