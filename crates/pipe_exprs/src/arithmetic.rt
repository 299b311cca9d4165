//! Arithmetic of two values of an integer type.

ghost use Rattle.std.specs.Prelude.{◌≡◌, ◌≤◌, ◌^◌, ◌*ℤ◌, true};
ghost use Rattle.std.specs.Int.RustNames.{unsigned_abs};
ghost use Rattle.pipe_columns.specs.AnyValue.{fits, fits_number};
ghost use Rattle.pipe_columns.specs.declared.operator.Operator.TheVariants as op;
ghost use Rattle.pipe_model.specs.Operators.{arithmetic as arithmetic_of, exact_result, number_if_any};
ghost use Rattle.pipe_columns.specs.DataType.{wrapped as wrap, is_integer};

use pipe_columns::{AnyValue, DataType, Operator};

/// A number wrapped into a type.
fn wrapped_into(number: i128, dtype: DataType) -> i128
    ensures { result ≡ wrap dtype number }
{
    match dtype {
        DataType::Boolean | DataType::String | DataType::Int128 => number,
        DataType::Int8 => (number.rem_euclid(1 << 8) as u8).cast_signed() as i128,
        DataType::Int16 => (number.rem_euclid(1 << 16) as u16).cast_signed() as i128,
        DataType::Int32 | DataType::Date => {
            (number.rem_euclid(1 << 32) as u32).cast_signed() as i128
        }
        DataType::Int64 => (number.rem_euclid(1 << 64) as u64).cast_signed() as i128,
        DataType::UInt8 => number.rem_euclid(1 << 8),
        DataType::UInt16 => number.rem_euclid(1 << 16),
        DataType::UInt32 => number.rem_euclid(1 << 32),
        DataType::UInt64 => number.rem_euclid(1 << 64),
    }
}

/// A quotient rounded down, wrapped into a type; null for a zero divisor.
fn quotient(a: i128, b: i128, dtype: DataType) -> AnyValue
    requires short_a { unsigned_abs a ≤ 2 ^ 64 }
    requires short_b { unsigned_abs b ≤ 2 ^ 64 }
    ensures { result ≡ number_if_any dtype (exact_result op.FloorDivide a b) }
{
    if b == 0 {
        AnyValue::Null
    } else if b > 0 {
        AnyValue::Int(wrapped_into(a.div_euclid(b), dtype))
    } else {
        AnyValue::Int(wrapped_into((-a).div_euclid(-b), dtype))
    }
}

/// What is left after a quotient rounded down, wrapped into a type; null for a zero divisor.
fn modulus(a: i128, b: i128, dtype: DataType) -> AnyValue
    requires short_a { unsigned_abs a ≤ 2 ^ 64 }
    requires short_b { unsigned_abs b ≤ 2 ^ 64 }
    ensures { result ≡ number_if_any dtype (exact_result op.Modulus a b) }
{
    if b == 0 {
        AnyValue::Null
    } else if b > 0 {
        AnyValue::Int(wrapped_into(a.rem_euclid(b), dtype))
    } else {
        AnyValue::Int(wrapped_into(-(-a).rem_euclid(-b), dtype))
    }
}

/// A product wrapped into a type, of two of its numbers.
fn product(a: i128, b: i128, dtype: DataType) -> i128
    requires integer { is_integer dtype ≡ true }
    requires fits_a { fits_number a dtype ≡ true }
    requires fits_b { fits_number b dtype ≡ true }
    ensures { result ≡ wrap dtype (a *ℤ b) }
{
    if dtype == DataType::UInt64 {
        (a as u64).wrapping_mul(b as u64) as i128
    } else {
        wrapped_into(a * b, dtype)
    }
}

/// What an operator makes of two numbers of a type: null where it is no arithmetic.
fn number_result(op: Operator, dtype: DataType, a: i128, b: i128) -> AnyValue
    requires integer { is_integer dtype ≡ true }
    requires fits_a { fits_number a dtype ≡ true }
    requires fits_b { fits_number b dtype ≡ true }
    ensures { result ≡ number_if_any dtype (exact_result op a b) }
{
    match op {
        Operator::Plus => AnyValue::Int(wrapped_into(a + b, dtype)),
        Operator::Minus => AnyValue::Int(wrapped_into(a - b, dtype)),
        Operator::Multiply => AnyValue::Int(product(a, b, dtype)),
        Operator::FloorDivide => quotient(a, b, dtype),
        Operator::Modulus => modulus(a, b, dtype),
        Operator::Eq
        | Operator::NotEq
        | Operator::Lt
        | Operator::LtEq
        | Operator::Gt
        | Operator::GtEq
        | Operator::And
        | Operator::Or => AnyValue::Null,
    }
}

/// Arithmetic of two values of an integer type.
pub(crate) fn arithmetic(op: Operator, dtype: DataType, a: &AnyValue, b: &AnyValue) -> AnyValue
    requires integer { is_integer dtype ≡ true }
    requires fits_a { fits a.now dtype ≡ true }
    requires fits_b { fits b.now dtype ≡ true }
    ensures { result ≡ arithmetic_of op dtype a.now b.now }
{
    match (a, b) {
        (AnyValue::Int(a), AnyValue::Int(b)) => number_result(op, dtype, *a, *b),
        (_, _) => AnyValue::Null,
    }
}
