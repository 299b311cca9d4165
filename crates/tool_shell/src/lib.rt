//! The shell around a program: what it is given, its exit statuses, and the line that tells of a fault.
#![tactic(auto)]

mod given;
mod line;
mod memory;
mod status;
mod untaken;

pub use given::{Given, given_by};
pub use line::put_line;
pub use memory::first_block;
pub use status::{
    DAMAGED, DONE, INPUT_FAILED, INPUT_REFUSED, NO_MEMORY, OUTPUT_FAILED, QUERY_REFUSED,
    STORE_FAILED, TOO_LARGE, WORDS_REFUSED,
};
pub use untaken::report_untaken;
