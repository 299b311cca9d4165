//! A query, as it is handed on.

use pipe_columns::Schema;
use pipe_exprs::{Arena, Node};

/// A query: the schema of its input, its expressions, the nodes of its keys and of its aggregates,
/// a slice of its groups as how many are dropped and how many are kept at most, and whether groups
/// come in the order of their first rows.
#[derive(Drop)]
pub struct Query {
    pub schema: Schema,
    pub arena: Arena,
    pub keys: Vec<Node>,
    pub aggs: Vec<Node>,
    pub slice: Option<(i64, usize)>,
    pub maintain_order: bool,
}
