//! What words ask for.

use pipe_aggs::Query;
use pipe_columns::Text;

/// The state of files, by a query without fault; their first chunk has a position.
#[derive(Drop)]
pub struct SaveQuestion {
    pub query: Query,
    pub first: u32,
    pub files: Vec<Text>,
}

/// The states of a query without fault in files, regrouped by the key columns at some positions.
#[derive(Drop)]
pub struct RollQuestion {
    pub query: Query,
    pub keep: Vec<usize>,
    pub files: Vec<Text>,
}

/// What words ask for.
#[derive(Drop)]
pub enum Request {
    Save(SaveQuestion),
    Roll(RollQuestion),
}
