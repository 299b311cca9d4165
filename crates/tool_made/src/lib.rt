//! Rows that are generated from a seed, in chunks, and the query that they are asked.
#![tactic(auto)]

mod columns;
pub mod laws;
mod made;
mod query;
mod round;
mod worked;

pub use made::Made;
pub use query::made_query;
pub use round::made_round;
