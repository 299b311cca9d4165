//! What the words of a command ask of a summary: that files are added to it, or that it is shown; or why
//! they are refused.
#![tactic(auto)]

mod question;
mod refusal;
mod request;
mod said;
mod worked;

pub use question::read_request;
pub use refusal::{AskError, Refusal};
pub use request::{AddQuestion, Request};
