//! The states of groups for one aggregate, in a vector of its own kind.
#![tactic(auto)]

mod columns;
mod count_states;
mod direction;
mod extreme_kinds;
mod extreme_states;
mod kind;
mod kind_lent;
mod kind_list;
mod kind_state;
mod other_kinds;
mod other_states;
mod plain_state;
mod state_column;
mod state_list;
mod state_run;
mod states;
mod sum_kinds;
mod sum_states;

pub use state_column::StateColumn;
pub use states::States;
