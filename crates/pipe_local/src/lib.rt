//! The table of a worker: groups that it holds, and rows of other keys, which wait as bytes.
#![tactic(auto)]

mod one_buffer;
mod waiting_partitions;
mod worker_end;
mod worker_ends;
mod worker_table;

pub use worker_end::WorkerEnd;
pub use worker_table::WorkerTable;
