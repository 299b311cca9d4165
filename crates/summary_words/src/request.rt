//! What words ask for.

use pipe_aggs::Query;
use pipe_columns::Text;

/// Files that are added, by a query without fault that doesn't keep the order of rows.
#[derive(Drop)]
pub struct AddQuestion {
    pub query: Query,
    pub files: Vec<Text>,
}

/// What words ask for.
#[derive(Drop)]
pub enum Request {
    /// That files are added.
    Add(AddQuestion),
    /// That the answer of such a query is shown.
    Show(Query),
}
