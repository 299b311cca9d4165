//! What a run over chunks does: which keys a worker keeps, what overflows, the plan of each worker
//! in each partition, and the replay of a partition's journal.
#![tactic(auto)]

mod event;
mod laws_events;
mod laws_keys;
mod laws_pieces;
mod laws_rounds;
mod laws_turns;
mod laws_whole;
mod limits;
mod worked;
mod worked_edges;
mod worked_rounds;

pub use event::{PartitionEvent, SpillAction};
pub use limits::{Limits, SinkKind};
