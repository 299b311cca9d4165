//! How an insert ends.

use pipe_spill::SpillRow;

/// How an insert of a row ends. A row that isn't taken is handed back.
#[derive(Debug, Drop)]
pub enum InsertEnd {
    Done,
    /// Its key is new, and the limit is passed.
    Overflow(SpillRow),
    /// Memory was wanting.
    Memory(SpillRow),
}

/// How an insert of a row that is lent ends.
#[derive(Clone, Copy, Debug, PartialEq, Eq)]
pub enum LentEnd {
    Done,
    /// Its key is new, and the limit is passed.
    Overflow,
    /// Memory was wanting.
    Memory,
}
