//! Closed partitions that are asked for their groups, one after another or side by side.
#![tactic(auto)]

mod answer;
mod asked;
mod by_place;
mod cut;
mod form;
mod group_source;
mod in_turn;
mod kept;
mod laws;
mod side_by_side;
mod stacking;
mod tasks;

pub use answer::answer_of_parts;
pub use form::{AsFrame, AsText, Form, GroupsText};
pub use group_source::GroupBySource;
pub use laws::what_a_group_source_gives;
