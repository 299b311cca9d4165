//! Why words ask for nothing.

use tool_query::NoQuery;

/// Why words are refused.
#[derive(Clone, Copy, Debug, PartialEq, Eq)]
pub enum Refusal {
    /// They are of neither shape.
    Words,
    /// The query's word is none.
    Query(NoQuery),
    /// The query has a slice, or keeps order.
    Sliced,
    /// The word of keys is no list of names of key columns, one at least and none twice.
    Keys,
}

/// Why no request was read.
#[derive(Debug, Drop, PartialEq, Eq)]
pub enum AskError {
    /// The words are refused.
    Refused(Refusal),
    /// Memory ran out.
    Memory,
}
