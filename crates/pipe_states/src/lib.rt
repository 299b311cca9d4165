//! Saved states of groups: what they are, what their bytes are, and what they come to regrouped by
//! a part of the key columns.
#![tactic(auto)]

mod fair_laws;
mod fairness;
mod halves;
mod laws;
mod numbers;
mod reading;
mod results;
mod row_read;
mod saved_types;
mod state_error;
mod state_file;
mod state_row;
mod values;
mod worked;
mod writing;

pub use reading::read_state;
pub use saved_types::{is_mean, width};
pub use state_error::StateError;
pub use state_file::StateFile;
pub use state_row::StateRow;
pub use writing::write_state;
