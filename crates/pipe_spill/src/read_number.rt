//! A number out of the bytes of its code.

ghost use Rattle.std.specs.Prelude.{◌≡◌, ◌++◌, ◌^◌, ◌<◌, ◌≤◌, IfSome, IsNone, length, true};
ghost use Rattle.std.specs.Int.{bytes_high_first};
ghost use Rattle.pipe_columns.specs.AnyValue.{fits_number};
ghost use Rattle.pipe_columns.specs.Key.{number_code};
ghost use Rattle.pipe_spill.specs.Reading.{width};

use crate::row_read::take_u64;
use pipe_columns::DataType;

/// How many bytes a number of the type has in its code.
fn width(dtype: DataType) -> usize
    ensures { result ≡ width dtype }
{
    match dtype {
        DataType::Boolean | DataType::String => 0,
        DataType::Int8 | DataType::UInt8 => 1,
        DataType::Int16 | DataType::UInt16 => 2,
        DataType::Int32 | DataType::UInt32 | DataType::Date => 4,
        DataType::Int64 | DataType::UInt64 => 8,
        DataType::Int128 => 16,
    }
}

/// The number whose bytes stand in front, most significant first, and the bytes after them.
fn read_bytes(body: &[u8], width: usize) -> Option<(u128, &[u8])>
    requires { width ≤ 16 }
    ensures range { IfSome result (λ p. p.0 < 256 ^ width) }
    ensures bytes { IfSome result (λ p. bytes_high_first width p.0 ++ p.1.now ≡ body.now) }
    ensures none { IsNone result → length body.now < width }
{
    if width == 8 {
        let (number, rest) = take_u64(body)?;
        return Some((u128::from(number), rest));
    }
    if body.len() < width {
        return None;
    }
    let (front, rest) = body.split_at(width);
    let mut number: u128 = 0;
    for byte in front {
        number = number * 256 + *byte as u128;
    }
    Some((number, rest))
}

/// The number of a type that is counted so from the least one of a signed type, or from 0.
fn number_of(counted: u128, dtype: DataType) -> i128
    requires number { 0 < width dtype }
    requires range { counted < 256 ^ width dtype }
    ensures fits { fits_number result dtype ≡ true }
    ensures code { number_code dtype result ≡ bytes_high_first (width dtype) counted }
{
    match dtype {
        DataType::Int8 => counted as i128 - (1 << 7),
        DataType::Int16 => counted as i128 - (1 << 15),
        DataType::Int32 | DataType::Date => counted as i128 - (1 << 31),
        DataType::Int64 => counted as i128 - (1 << 63),
        DataType::Int128 if counted < 1 << 127 => counted as i128 + i128::MIN,
        DataType::Int128 => (counted - (1 << 127)) as i128,
        DataType::UInt8 | DataType::UInt16 | DataType::UInt32 | DataType::UInt64 => counted as i128,
        DataType::Boolean | DataType::String => unreachable!(),
    }
}

/// The number of a type whose bytes stand in front, and the bytes after them. None where there are
/// too few.
pub(crate) fn read_number(body: &[u8], dtype: DataType) -> Option<(i128, &[u8])>
    requires { 0 < width dtype }
    ensures fits { IfSome result (λ p. fits_number p.0 dtype ≡ true) }
    ensures code { IfSome result (λ p. number_code dtype p.0 ++ p.1.now ≡ body.now) }
    ensures none { IsNone result → length body.now < width dtype }
{
    let (counted, rest) = read_bytes(body, width(dtype))?;
    Some((number_of(counted, dtype), rest))
}
