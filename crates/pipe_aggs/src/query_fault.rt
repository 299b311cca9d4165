//! What can be wrong with a query.

/// What is wrong with a query: the first fault in this order.
#[derive(Clone, Copy, Debug, PartialEq, Eq)]
pub enum QueryFault {
    /// Two fields of the schema have one name.
    DoubleName,
    /// There is no key.
    NoKey,
    /// A key or an aggregate is no node of the arena.
    BadNode,
    /// A key or an aggregate reaches a column that no field names.
    UnknownColumn,
    /// The schema has a field of 128 bits, or a key or an aggregate has no type.
    IllTyped,
    /// A key reaches an aggregate, a count of rows, a filter or a sort.
    KeyHasAggregate,
    /// An aggregate can't be kept in a table of groups.
    NotConvertible,
    /// An aggregate is a sum or a mean of dates.
    SumOfDate,
    /// Two output columns have one name.
    DoubleOutput,
    /// The slice begins before the first group.
    NegativeSlice,
}
