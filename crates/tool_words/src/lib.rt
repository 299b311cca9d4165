//! What the words of a command ask for: the answer of a query over files or the lines of a run over
//! generated rows, by a plan; or why they are refused.
#![tactic(auto)]

mod question;
mod refusal;
mod request;
mod worked;

pub use question::read_request;
pub use refusal::{AskError, Refusal};
pub use request::{MadeQuestion, Question, Request};
