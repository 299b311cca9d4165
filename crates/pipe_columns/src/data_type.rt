//! The types of columns.

/// The type of a column. `Int128` is a type of outputs alone, and a `Date` is a day number.
#[derive(Clone, Copy, Debug, PartialEq, Eq)]
pub enum DataType {
    Boolean,
    Int8,
    Int16,
    Int32,
    Int64,
    UInt8,
    UInt16,
    UInt32,
    UInt64,
    Int128,
    Date,
    String,
}
