//! Groups in one buffer: the keys' bytes, the running aggregates and the first places of rows.
#![tactic(auto)]

mod ahead;
mod answer_laws;
mod arrange;
mod by_place;
mod copies;
mod eval;
mod feed;
mod feed_run;
mod feed_taken;
mod finish;
mod given;
mod groups;
mod join;
mod keys;
mod laws;
mod lent_states;
mod order;
mod part_laws;
mod picked;
mod pieces;
mod place_order;
mod placed_groups;
mod places;
mod prefix;
mod room;
mod row_code;
mod slices;
mod states;
mod turns;
mod types;
mod unfinished;
mod worked;

pub use answer_laws::{what_groups_give, what_placed_groups_give, what_placed_rows_give};
pub use eval::Eval;
pub use groups::Groups;
pub use laws::{what_few_rows_allow, what_groups_hold, which_keys_are_held};
pub use part_laws::{how_placed_rows_join, what_a_partition_gives};
pub use pieces::GroupPieces;
pub use placed_groups::PlacedGroups;
pub use places::Places;
pub use row_code::{encode_row, own_values};
