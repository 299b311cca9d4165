//! A source of the chunks of several files of CSV.
#![tactic(auto)]

mod begins;
mod chunk_reader;
mod column_fill;
mod csv_source;
mod field_at;
mod file_load;
mod file_text;
mod kept_text;
mod known_fields;
mod laid_check;
mod laid_push;
mod laws;
mod layout;
mod look_over;
mod looks;
mod named_begin;
mod named_check;
mod named_laws;
mod named_push;
mod ordered_begin;
mod piece_check;
mod piece_rows;
mod piece_starts;
mod quoted_rows;
mod read_options;
mod reading;
mod room;
mod round;
mod row_check;
mod row_push;
mod source_columns;
mod source_place;
mod starts;
mod wanted_places;
mod worked;
mod worked_names;

pub use chunk_reader::ChunkReader;
pub use csv_source::CsvSource;
pub use read_options::CsvReadOptions;
pub use source_place::SourcePlace;
