//! The exit statuses that commands on saved states have beside those of all programs.

/// A file is no state of the query.
pub const NOT_A_STATE: u8 = 12;

/// The range of a state shares a number with that of one before it.
pub const OVERLAP: u8 = 13;

/// The word of keys names no key columns.
pub const KEYS_REFUSED: u8 = 14;
