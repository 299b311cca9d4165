//! Tables of groups, the local table of a worker, and what overflows from it.
#![tactic(auto)]

mod ahead;
mod beside;
mod by_hash;
mod combine;
mod exchange;
mod feed_waiting;
mod find_waiting;
mod finish;
mod hash_table;
mod insert;
mod insert_end;
mod laws;
mod local_end;
mod local_finish;
mod local_rests;
mod merge_part;
mod ooc_state;
mod part_size;
mod parts;
mod query_groups;
mod reserve;
mod spill_partitions;
mod spot;
mod take_waiting;
mod thread_local;
mod types;

pub use beside::LentAt;
pub use hash_table::AggHashTable;
pub use insert_end::{InsertEnd, LentEnd};
pub use local_end::{LentLocalEnd, LocalEnd};
pub use ooc_state::OocState;
pub use pipe_plan::SpillAction;
pub use query_groups::QueryGroups;
pub use spill_partitions::SpillPartitions;
pub use thread_local::ThreadLocalTable;
