//! Records of CSV where they stand in a text: found 64 bytes at a time, and cut into pieces.
#![tactic(auto)]

mod eight_digits;
mod laws;
mod number_rows;
mod numbers;
mod pieces;
mod plain_field;
mod plain_row;
mod plain_rows;
mod quoted;
mod record_places;
mod row;
mod scan;
mod skip;
mod stops;
mod text_head;

pub use laws::{records_are_lines, records_of_parts, short_numbers_are_numbers};
pub use numbers::field_number;
pub use pieces::{piece_end, piece_ends};
pub use plain_rows::skip_plain_rows;
pub use quoted::read_record;
pub use record_places::{record_end, record_start};
pub use row::{Row, next_row};
pub use scan::{Scan, scan_next};
pub use skip::{Skip, skip_rows};
pub use stops::Stops;
pub use text_head::{has_quote, text_start};
