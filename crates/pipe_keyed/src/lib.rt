//! Groups that are found by marks of their keys.
#![tactic(auto)]

mod below;
mod keyed_feed;
mod keyed_finish;
mod keyed_groups;
mod marking;
mod merge;
mod same_keys;
mod secret;
mod sought;
mod take;

pub use keyed_groups::KeyedGroups;
pub use marking::Marking;
pub use merge::take_all;
pub use same_keys::are_same;
pub use sought::{KeyCode, Sought};
