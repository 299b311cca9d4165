//! The query that a JSON value is.
#![tactic(auto)]

mod expr_json;
mod json_names;
mod json_shapes;
mod leaf_json;
mod query_json;
mod worked;

pub use query_json::query_of;
