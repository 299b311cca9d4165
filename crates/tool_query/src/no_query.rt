//! Why a word is no query.

use pipe_aggs::QueryFault;

/// Why a word is no query that can be asked.
#[derive(Clone, Copy, Debug, PartialEq, Eq)]
pub enum NoQuery {
    /// It is no JSON.
    NotJson,
    /// The JSON is no query.
    NotAQuery,
    /// The query has a fault.
    Faulty(QueryFault),
}

/// Why no query was read.
#[derive(Debug, Drop, PartialEq, Eq)]
pub enum QueryError {
    /// The word is none.
    Refused(NoQuery),
    /// Memory ran out.
    Memory,
}
