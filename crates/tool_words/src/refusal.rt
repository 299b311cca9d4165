//! Why words ask for nothing.

use tool_query::NoQuery;

/// Why words are refused.
#[derive(Clone, Copy, Debug, PartialEq, Eq)]
pub enum Refusal {
    /// The command doesn't take them, or a value isn't one of its option.
    Words,
    /// The query's word is no query that can be asked.
    NoQuery(NoQuery),
    /// The sink that is named doesn't keep keys of the query's types.
    UnfitSink,
}

/// Why no question was read.
#[derive(Debug, Drop, PartialEq, Eq)]
pub enum AskError {
    /// The words are refused.
    Refused(Refusal),
    /// Memory ran out.
    Memory,
}
