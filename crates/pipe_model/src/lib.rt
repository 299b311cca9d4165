//! What a group-by answers: definitions that several crates cite, and laws over them.
#![tactic(auto)]

mod group_laws;
mod laws;
mod worked;
mod worked_aggs;
mod worked_exprs;
mod worked_order;
mod worked_output;
mod worked_query;
