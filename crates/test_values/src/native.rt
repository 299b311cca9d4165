//! Both edges of each number type, and its name.

use pipe_columns::DataType;
use pipe_native::NumericNative;
use std::cmp::Ordering;

/// Whether a type has a name, keeps its least and greatest number, orders them by value, and wraps
/// from the greatest to the least and back.
fn wraps_at<K: NumericNative>(dtype: DataType, least: i128, greatest: i128) -> bool {
    let low = K::narrowed(least);
    let high = K::narrowed(greatest);
    K::dtype() == dtype
        && low.widened() == least
        && high.widened() == greatest
        && low.compare(high) == Ordering::Less
        && high.compare(low) == Ordering::Greater
        && low.compare(low) == Ordering::Equal
        && high.plus(K::narrowed(1)).widened() == least
        && low.plus(K::narrowed(-1)).widened() == greatest
}

/// Whether that is so of the types of signed numbers.
fn signed_wrap() -> bool {
    wraps_at::<i8>(DataType::Int8, -128, 127)
        && wraps_at::<i16>(DataType::Int16, -32768, 32767)
        && wraps_at::<i32>(DataType::Int32, -2147483648, 2147483647)
        && wraps_at::<i64>(DataType::Int64, -9223372036854775808, 9223372036854775807)
        && wraps_at::<i128>(DataType::Int128, i128::MIN, i128::MAX)
}

/// Whether it is so of those of unsigned ones.
fn unsigned_wrap() -> bool {
    wraps_at::<u8>(DataType::UInt8, 0, 255)
        && wraps_at::<u16>(DataType::UInt16, 0, 65535)
        && wraps_at::<u32>(DataType::UInt32, 0, 4294967295)
        && wraps_at::<u64>(DataType::UInt64, 0, 18446744073709551615)
}

#[test]
fn edges(rt: HostRuntime) {
    assert!(rt; signed_wrap() && unsigned_wrap());
}
