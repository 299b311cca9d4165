//! What `lavzimo` shows of the answer to a question: its columns, the row of no rows, and the text.
#![tactic(auto)]

mod columns;
mod keys;
mod laws;
mod none;
mod showing;
mod text;

pub use showing::Showing;
pub use text::shown_text;
