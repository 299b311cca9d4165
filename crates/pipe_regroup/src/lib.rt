//! Saved states regrouped by some of their keys, and merged into one.
#![tactic(auto)]

mod at_once;
mod code_hasher;
mod coverage;
mod frame;
mod group;
mod join;
mod kept_fields;
mod merge;
mod merge_error;
mod ranges;
mod refusal;
mod regroup_error;
mod regrouping;
mod row_groups;
mod rule;
mod setup;
mod total;

pub use at_once::regroup;
pub use merge::merge_files;
pub use merge_error::MergeError;
pub use regroup_error::RegroupError;
pub use regrouping::Regrouping;
