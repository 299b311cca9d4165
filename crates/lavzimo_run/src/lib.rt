//! The run of a query over files whose columns are found by their names: its stores, its workers, and
//! the frame of its groups.
#![tactic(auto)]

mod begin;
mod job;
mod plan;
mod run;
mod stores;

pub use job::Job;
pub use run::run_job;
pub use stores::make_stores;
