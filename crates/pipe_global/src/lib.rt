//! Partitions behind locks, which threads may enter in any order, and which are nevertheless the
//! replay of their journals whenever a lock is free.
#![tactic(auto)]

mod batch_error;
mod books;
mod close_table;
mod closed;
mod closed_laws;
mod contents;
mod dump_error;
mod finish;
mod gate;
mod gather;
mod global_table;
mod journal;
mod mark;
mod merge;
mod naming;
mod open_table;
mod partition;
mod partition_ends;
mod place;
mod put;
mod ready;
mod resume;
mod shares;
mod take;
mod tally;

pub use batch_error::BatchError;
pub use closed::ClosedPartition;
pub use dump_error::DumpError;
pub use gate::{Gate, OpenGate};
pub use global_table::GlobalTable;
pub use journal::{Journal, Journals};
pub use naming::{Blanks, Naming, OfFaults, OfPartitions, OfRefusals, OfWorkers};
pub use partition::Partition;
pub use shares::Shares;
pub use tally::{Parts, Tally};
