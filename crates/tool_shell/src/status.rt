//! The exit statuses that programs share.

/// What was asked for was written.
pub const DONE: u8 = 0;

/// The words are refused.
pub const WORDS_REFUSED: u8 = 2;

/// The query's word is no JSON, no query, or a query that can't be asked.
pub const QUERY_REFUSED: u8 = 3;

/// A file isn't there, or its text doesn't fit the schema.
pub const INPUT_REFUSED: u8 = 4;

/// Reading failed.
pub const INPUT_FAILED: u8 = 5;

/// Writing failed.
pub const OUTPUT_FAILED: u8 = 6;

/// A file has more bytes than are read, or there are too many rows or chunks.
pub const TOO_LARGE: u8 = 7;

/// A store failed.
pub const STORE_FAILED: u8 = 8;

/// A store gave back another frame than was put.
pub const DAMAGED: u8 = 9;

/// Memory ran out.
pub const NO_MEMORY: u8 = 10;
