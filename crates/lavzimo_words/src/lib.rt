//! What the words of the program `lavzimo` ask: columns that are shown, in an order, of a query that
//! they make; or why they are refused.
#![tactic(auto)]

mod asked;
mod asked_column;
mod command;
mod cut;
mod item;
mod joined;
mod laws;
mod pieces;
mod query;
mod refusal;
mod role;
mod settings;
mod shown;
mod source;
mod words;
mod worked;

pub use asked::{Asked, Columns, Order, Question};
pub use asked_column::AskedColumn;
pub use query::query_of;
pub use refusal::Refusal;
pub use role::Role;
pub use source::{Source, shown_columns};
pub use words::{Reading, read_words};
