//! Why words ask for nothing.

use tool_query::NoQuery;

/// Why words are refused.
#[derive(Clone, Copy, Debug, PartialEq, Eq)]
pub enum Refusal {
    /// They are of neither shape.
    Words,
    /// The query's word is none.
    Query(NoQuery),
    /// The query keeps the order of rows.
    Ordered,
}

/// Why no request was read.
#[derive(Debug, Drop, PartialEq, Eq)]
pub enum AskError {
    /// The words are refused.
    Refused(Refusal),
    /// Memory ran out.
    Memory,
}
