//! What a query gives over a text of CSV in memory, read without a thread: the answer over its rows.
#![tactic(auto)]

mod checked;
mod counted;
mod feed_groups;
mod groups;
mod next_fitting;
mod reader;

pub use checked::checked_of;
pub use groups::group_text;
pub use reader::{CHUNK_ROWS, name_of_text, reader_of};
