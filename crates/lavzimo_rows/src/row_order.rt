//! Orders of rows.

/// An order by what a shown column shows, upwards or downwards.
#[derive(Clone, Copy, Debug, PartialEq, Eq)]
pub struct ColumnOrder {
    pub column: usize,
    pub descending: bool,
}

/// The order in which rows are shown.
#[derive(Clone, Copy, Debug, PartialEq, Eq)]
pub enum RowOrder {
    /// As they stand: an answer that keeps order has them by their first rows.
    First,
    /// By their keys.
    Key,
    /// By what a column shows; rows that show the same stand by their keys.
    Column(ColumnOrder),
}
