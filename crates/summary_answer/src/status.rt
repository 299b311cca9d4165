//! The exit statuses that commands on a summary have beside those of all programs.

/// The store failed, or wasn't opened.
pub const STORE_FAILED: u8 = 8;

/// A frame of the store is no state of the query that stands behind those before it.
pub const FRAME_DAMAGED: u8 = 12;
