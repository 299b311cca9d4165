//! Group-by runs of every kind of sink: fed in rounds, or over all chunks at once.
#![tactic(auto)]

mod begin;
mod combined;
mod feed;
mod finish;
mod group_by_run;
mod kind;
mod positions;
mod typed_begin;
mod typed_feed;
mod typed_finish;
mod typed_job;
mod typed_round;
mod typed_run;
mod typed_whole;
mod whole_run;

pub use group_by_run::GroupByRun;
pub use pipe_run::{
    GenericRun, GroupByOutput, GroupBySource, GroupsText, PipeError, TextOutput, run_generic,
    what_a_group_source_gives,
};
pub use whole_run::{run_group_by, run_group_by_rules};
