//! Runs: chunks that are fed in rounds to workers over partitions, and the groups that they give.
#![tactic(auto)]

mod answer;
mod begin;
mod begun;
mod chunk_check;
mod error;
mod failed;
mod finish;
mod gone;
mod kept_table;
mod laws;
mod limits;
mod opening;
mod output;
mod parts;
mod round;
mod round_of;
mod run;
mod stores;
mod whole_run;

pub use begin::checked_query;
pub use chunk_check::checked_rows;
pub use error::PipeError;
pub use gone::drop_chunks;
pub use limits::copy_of;
pub use output::{GroupByOutput, TextOutput};
pub use pipe_asked::{GroupBySource, GroupsText, what_a_group_source_gives};
pub use run::{GenericRun, with_marks, with_room};
pub use whole_run::run_generic;
