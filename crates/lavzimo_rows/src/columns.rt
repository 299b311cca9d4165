//! Columns that are shown.

use pipe_columns::Text;

/// Where the halves of a mean stand: the columns of the exact sum of its numbers, and of how many
/// they are.
#[derive(Clone, Copy, Debug, PartialEq, Eq)]
pub struct MeanColumns {
    pub sum: usize,
    pub count: usize,
}

/// What a column shows of the columns of an answer.
#[derive(Clone, Copy, Debug, PartialEq, Eq)]
pub enum Shows {
    /// The values of a column: of a key, of an aggregate, or an exact sum.
    Value(usize),
    /// Means, as decimal numbers.
    Mean(MeanColumns),
}

/// A column that is shown, under a name.
#[derive(Debug, Drop)]
pub struct ShownColumn {
    pub name: Text,
    pub shows: Shows,
}
