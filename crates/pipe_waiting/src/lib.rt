//! Rows that wait as the bytes that they have in their frame.
#![tactic(auto)]

mod apart;
mod append_row;
mod frame_rows;
mod laws;
mod lent_again;
mod lent_keys;
mod lent_rows;
mod owned_rows;
mod plain_rows;
mod plain_value;
mod push_row;
mod read_inputs;
mod row_head;
mod waiting_rows;
mod worked;

pub use frame_rows::{OwnPartition, lend_frame};
pub use lent_rows::{LentRow, LentRows};
pub use owned_rows::own_rows;
pub use waiting_rows::WaitingRows;
