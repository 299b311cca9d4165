//! What the words of a command ask for: the state of files of CSV, or states regrouped; or why they
//! are refused.
#![tactic(auto)]

mod distinct;
mod keys;
mod question;
mod refusal;
mod request;
mod said;
mod worked;

pub use keys::kept_positions;
pub use question::{read_request, whole_query};
pub use refusal::{AskError, Refusal};
pub use request::{Request, RollQuestion, SaveQuestion};
