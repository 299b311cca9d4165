//! The rows of chunks as a query sees them.
#![tactic(auto)]

mod cells;
mod chunk_rows;
mod conditions;
mod laws;
mod row_parts;
mod row_runs;
mod value_lists;

pub use chunk_rows::ChunkRows;
pub use conditions::are_chunks;
