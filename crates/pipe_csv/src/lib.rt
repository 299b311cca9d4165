//! CSV: the values of fields, columns of them, and the text of a frame.
#![tactic(auto)]

mod columns;
mod csv_error;
mod csv_record;
mod csv_text;
mod field;
mod header;
mod number;
mod worked;

pub use columns::make_column;
pub use csv_error::CsvError;
pub use csv_text::frame_text;
pub use field::{does_read, read_field};
pub use header::is_header;
