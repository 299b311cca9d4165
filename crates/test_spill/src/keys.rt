//! The codes of the edges of each type, and the partitions of keys.

use crate::hold::hold;
use pipe_columns::{AnyValue, DataType, Text};
use pipe_spill::{encode_key, fold, partition_of};
use std::alloc::{AllocError, Global};
use std::test::Fail;

/// A value of a table.
#[derive(Clone, Copy)]
enum Seen {
    Null,
    Truth(bool),
    Int(i128),
    Word(&'static str),
}

/// The value of a table.
fn value_of(alloc: Global, seen: Seen) -> Result<AnyValue, AllocError> {
    match seen {
        Seen::Null => Ok(AnyValue::Null),
        Seen::Truth(truth) => Ok(AnyValue::Boolean(truth)),
        Seen::Int(number) => Ok(AnyValue::Int(number)),
        Seen::Word(word) => Ok(AnyValue::Text(Text::new(alloc, word)?)),
    }
}

/// Whether a value has this code.
fn has_code(
    alloc: Global,
    value: AnyValue,
    dtype: DataType,
    code: &[u8],
) -> Result<bool, AllocError> {
    let values = [value];
    Ok(values[0].fits(dtype) && encode_key(alloc, &values, &[dtype])?.as_slice() == code)
}

/// Values of each type, and their codes: numbers at the edges and about the middle, no value, truths and texts.
const KEYS: [(Seen, DataType, &[u8]); 49] = [
    (Seen::Int(-128), DataType::Int8, b"\x01\x00"),
    (Seen::Int(0), DataType::Int8, b"\x01\x80"),
    (Seen::Int(127), DataType::Int8, b"\x01\xff"),
    (Seen::Int(-1), DataType::Int8, b"\x01\x7f"),
    (Seen::Int(-32768), DataType::Int16, b"\x01\x00\x00"),
    (Seen::Int(0), DataType::Int16, b"\x01\x80\x00"),
    (Seen::Int(32767), DataType::Int16, b"\x01\xff\xff"),
    (Seen::Int(-2), DataType::Int16, b"\x01\x7f\xfe"),
    (
        Seen::Int(-2147483648),
        DataType::Int32,
        b"\x01\x00\x00\x00\x00",
    ),
    (Seen::Int(0), DataType::Int32, b"\x01\x80\x00\x00\x00"),
    (
        Seen::Int(2147483647),
        DataType::Int32,
        b"\x01\xff\xff\xff\xff",
    ),
    (
        Seen::Int(-2147483648),
        DataType::Date,
        b"\x01\x00\x00\x00\x00",
    ),
    (Seen::Int(0), DataType::Date, b"\x01\x80\x00\x00\x00"),
    (
        Seen::Int(2147483647),
        DataType::Date,
        b"\x01\xff\xff\xff\xff",
    ),
    (
        Seen::Int(-9223372036854775808),
        DataType::Int64,
        b"\x01\x00\x00\x00\x00\x00\x00\x00\x00",
    ),
    (
        Seen::Int(0),
        DataType::Int64,
        b"\x01\x80\x00\x00\x00\x00\x00\x00\x00",
    ),
    (
        Seen::Int(9223372036854775807),
        DataType::Int64,
        b"\x01\xff\xff\xff\xff\xff\xff\xff\xff",
    ),
    (
        Seen::Int(i128::MIN),
        DataType::Int128,
        b"\x01\x00\x00\x00\x00\x00\x00\x00\x00\x00\x00\x00\x00\x00\x00\x00\x00",
    ),
    (
        Seen::Int(0),
        DataType::Int128,
        b"\x01\x80\x00\x00\x00\x00\x00\x00\x00\x00\x00\x00\x00\x00\x00\x00\x00",
    ),
    (
        Seen::Int(i128::MAX),
        DataType::Int128,
        b"\x01\xff\xff\xff\xff\xff\xff\xff\xff\xff\xff\xff\xff\xff\xff\xff\xff",
    ),
    (Seen::Int(0), DataType::UInt8, b"\x01\x00"),
    (Seen::Int(255), DataType::UInt8, b"\x01\xff"),
    (Seen::Int(0), DataType::UInt16, b"\x01\x00\x00"),
    (Seen::Int(65535), DataType::UInt16, b"\x01\xff\xff"),
    (Seen::Int(0), DataType::UInt32, b"\x01\x00\x00\x00\x00"),
    (
        Seen::Int(16909060),
        DataType::UInt32,
        b"\x01\x01\x02\x03\x04",
    ),
    (
        Seen::Int(4294967295),
        DataType::UInt32,
        b"\x01\xff\xff\xff\xff",
    ),
    (
        Seen::Int(0),
        DataType::UInt64,
        b"\x01\x00\x00\x00\x00\x00\x00\x00\x00",
    ),
    (
        Seen::Int(18446744073709551615),
        DataType::UInt64,
        b"\x01\xff\xff\xff\xff\xff\xff\xff\xff",
    ),
    (Seen::Null, DataType::Int8, b"\x00"),
    (Seen::Null, DataType::Int16, b"\x00"),
    (Seen::Null, DataType::Int32, b"\x00"),
    (Seen::Null, DataType::Int64, b"\x00"),
    (Seen::Null, DataType::Int128, b"\x00"),
    (Seen::Null, DataType::UInt8, b"\x00"),
    (Seen::Null, DataType::UInt16, b"\x00"),
    (Seen::Null, DataType::UInt32, b"\x00"),
    (Seen::Null, DataType::UInt64, b"\x00"),
    (Seen::Null, DataType::Date, b"\x00"),
    (Seen::Null, DataType::Boolean, b"\x00"),
    (Seen::Null, DataType::String, b"\x00"),
    (Seen::Truth(false), DataType::Boolean, b"\x01\x00"),
    (Seen::Truth(true), DataType::Boolean, b"\x01\x01"),
    (Seen::Word(""), DataType::String, b"\x01\x00\x00"),
    (Seen::Word("a"), DataType::String, b"\x01a\x00\x00"),
    (Seen::Word("\0"), DataType::String, b"\x01\x00\x01\x00\x00"),
    (
        Seen::Word("\0\0"),
        DataType::String,
        b"\x01\x00\x01\x00\x01\x00\x00",
    ),
    (
        Seen::Word("a\0b"),
        DataType::String,
        b"\x01a\x00\x01b\x00\x00",
    ),
    (
        Seen::Word("\u{e9}\u{10348}"),
        DataType::String,
        b"\x01\xc3\xa9\xf0\x90\x8d\x88\x00\x00",
    ),
];

/// Whether each value has its code.
fn have_codes(alloc: Global) -> Result<bool, AllocError> {
    for (seen, dtype, code) in &KEYS {
        if !has_code(alloc, value_of(alloc, *seen)?, *dtype, code)? {
            return Ok(false);
        }
    }
    Ok(true)
}

/// Whether a key has this fold, and these partitions of 16 and of 2.
fn has_partitions(key: &[u8], number: u64, of_16: usize, of_2: usize) -> bool {
    fold(key) == number && partition_of(key, 16) == of_16 && partition_of(key, 2) == of_2
}

/// Whether keys have their folds and partitions.
fn have_partitions() -> bool {
    has_partitions(b"\x01a\x00\x00", 123008, 0, 0)
        && has_partitions(b"\x01b\x00\x00", 123969, 1, 1)
        && fold(b"") == 0
        && partition_of(b"\x01\x80\x00\x00\x00\x00\x00\x00\x02", 16) == 3
}

#[test]
fn keys_have_codes_and_partitions(rt: HostRuntime) -> Result<(), Fail> {
    hold(have_codes(rt.alloc()))?;
    hold(Ok(have_partitions()))
}
