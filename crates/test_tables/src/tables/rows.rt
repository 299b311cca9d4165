//! The rows of two tables, the last one first.

use pipe_chains::hash_bytes;
use pipe_columns::DataType;

/// Rows for two tables, the last one first: the types of both columns and how many are keys, both columns,
/// the tables' limit, whether room for all rows is made before, how many rows the first table takes, and
/// the keys and counts of all rows.
#[derive(Clone, Copy)]
pub(crate) struct Rows {
    pub(crate) types: [DataType; 2],
    pub(crate) keys: usize,
    pub(crate) k: &'static [i128],
    pub(crate) v: &'static [i128],
    pub(crate) limit: Option<usize>,
    pub(crate) is_made: bool,
    pub(crate) first: usize,
    pub(crate) due: (&'static [i128], &'static [i128]),
}

/// Rows of which the first table takes 1, 2, 3 and the second 2, 3, 4.
pub(crate) const FEW: Rows = Rows {
    types: [DataType::Int64, DataType::Int64],
    keys: 1,
    k: &[4, 3, 2, 3, 2, 1],
    v: &[4, 3, 2, 3, 2, 1],
    limit: None,
    is_made: true,
    first: 3,
    due: (&[1, 2, 3, 4], &[1, 2, 2, 1]),
};

/// Rows of 1, 2, 1, and of 2 behind them, for tables that let one key in.
pub(crate) const LIMITED: Rows = Rows {
    k: &[2, 2, 1, 2, 1],
    v: &[2, 2, 1, 2, 1],
    limit: Some(0),
    is_made: false,
    first: 0,
    ..FEW
};

/// A number of type UInt64 whose code, at the end of a key of 9 to 16 bytes, makes the hash 0.
const HASHED: i128 = 0x157c_4a7f_b979_379e;

/// Keys, which are more than may stand in one chain, and four of them again.
const MANY: [i128; 40] = [
    0, 1, 2, 3, 4, 5, 6, 7, 8, 9, 10, 11, 12, 13, 14, 15, 16, 17, 18, 19, 20, 21, 22, 23, 24, 25,
    26, 27, 28, 29, 30, 31, 32, 33, 34, 35, 0, 1, 2, 3,
];

const COUNTS: [i128; 36] = [
    2, 2, 2, 2, 1, 1, 1, 1, 1, 1, 1, 1, 1, 1, 1, 1, 1, 1, 1, 1, 1, 1, 1, 1, 1, 1, 1, 1, 1, 1, 1, 1,
    1, 1, 1, 1,
];

/// Rows of keys of one hash, of which the first table takes each, and so hides them, and the second few.
pub(crate) const HIDDEN_FIRST: Rows = Rows {
    types: [DataType::Int8, DataType::UInt64],
    keys: 2,
    k: &MANY,
    v: &[HASHED; 40],
    limit: None,
    is_made: false,
    first: 36,
    due: (
        &[
            0, 1, 2, 3, 4, 5, 6, 7, 8, 9, 10, 11, 12, 13, 14, 15, 16, 17, 18, 19, 20, 21, 22, 23,
            24, 25, 26, 27, 28, 29, 30, 31, 32, 33, 34, 35,
        ],
        &COUNTS,
    ),
};

/// The same, of which the second table hides them.
pub(crate) const HIDDEN_OTHER: Rows = Rows {
    first: 4,
    ..HIDDEN_FIRST
};

/// Whether two keys that end with that number have the hash 0.
pub(crate) fn are_hashed() -> bool {
    hash_bytes(&[1, 129, 1, 21, 124, 74, 127, 185, 121, 55, 158]) == 0
        && hash_bytes(&[1, 130, 1, 21, 124, 74, 127, 185, 121, 55, 158]) == 0
}
