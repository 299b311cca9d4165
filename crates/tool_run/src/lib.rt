//! A run over the chunks of files, or over generated rows: they are read or made in rounds, fed, and
//! answered.
#![tactic(auto)]

mod counted;
mod error;
mod event_counts;
mod feed_files;
mod feed_made;
mod file_run;
mod made_run;
mod read_round;
mod round_size;
mod run_lines;

pub use error::FileRunError;
pub use file_run::{run_files, run_files_to_frame};
pub use made_run::run_made;
pub use round_size::chunks_of_round;
pub use run_lines::made_lines;
