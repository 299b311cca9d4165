//! The rows that `lavzimo` shows of an answer: exact means, their order, and their texts.
#![tactic(auto)]

mod by_column;
mod by_key;
mod cell;
mod columns;
mod csv_rows;
mod decimal;
mod json_rows;
mod laws;
mod mean;
mod order;
mod row_order;
mod shown;
mod worked;

pub use columns::{MeanColumns, ShownColumn, Shows};
pub use csv_rows::csv_text;
pub use decimal::append_decimal;
pub use json_rows::json_text;
pub use mean::{Millionths, mean_micros};
pub use order::shown_rows;
pub use row_order::{ColumnOrder, RowOrder};
pub use shown::Shown;
