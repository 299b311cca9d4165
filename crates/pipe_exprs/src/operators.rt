//! What operators make of two values.

ghost use Rattle.std.specs.Prelude.{◌≡◌, Bool, is_some, true};
ghost use Rattle.std.specs.declared.cmp.Ordering.{Ordering as Order};
ghost use Rattle.pipe_columns.specs.AnyValue.{fits};
ghost use Rattle.pipe_exprs.specs.Comparisons.{compares};
ghost use Rattle.pipe_model.specs.Operators.{apply as apply_of, comparison as comparison_of};
ghost use Rattle.pipe_model.specs.Typing.{operator_type};

use crate::arithmetic::arithmetic;
use crate::logic::{and, or};
use pipe_columns::{AnyValue, DataType, Operator};
use std::cmp::Ordering;

/// Whether a comparison holds of an order: what is no comparison holds of none.
fn holds_of(op: Operator, order: Ordering) -> bool
    ensures { result ≡ compares op order }
{
    match op {
        Operator::Eq => order.is_eq(),
        Operator::NotEq => order.is_ne(),
        Operator::Lt => order.is_lt(),
        Operator::LtEq => order.is_le(),
        Operator::Gt => order.is_gt(),
        Operator::GtEq => order.is_ge(),
        Operator::Plus
        | Operator::Minus
        | Operator::Multiply
        | Operator::FloorDivide
        | Operator::Modulus
        | Operator::And
        | Operator::Or => false,
    }
}

/// A comparison of two values.
fn comparison(op: Operator, a: &AnyValue, b: &AnyValue) -> AnyValue
    ensures { result ≡ comparison_of (compares op) a.now b.now }
{
    match (a, b) {
        (AnyValue::Null, _) => AnyValue::Null,
        (_, AnyValue::Null) => AnyValue::Null,
        (_, _) => AnyValue::Boolean(holds_of(op, a.cmp(b))),
    }
}

/// An operator over two operands of a type that it takes.
pub(crate) fn apply(op: Operator, dtype: DataType, a: &AnyValue, b: &AnyValue) -> AnyValue
    requires typed { is_some (operator_type op dtype dtype) ≡ true }
    requires fits_a { fits a.now dtype ≡ true }
    requires fits_b { fits b.now dtype ≡ true }
    ensures { result ≡ apply_of op dtype a.now b.now }
{
    match op {
        Operator::Plus => arithmetic(op, dtype, a, b),
        Operator::Minus => arithmetic(op, dtype, a, b),
        Operator::Multiply => arithmetic(op, dtype, a, b),
        Operator::FloorDivide => arithmetic(op, dtype, a, b),
        Operator::Modulus => arithmetic(op, dtype, a, b),
        Operator::Eq => comparison(op, a, b),
        Operator::NotEq => comparison(op, a, b),
        Operator::Lt => comparison(op, a, b),
        Operator::LtEq => comparison(op, a, b),
        Operator::Gt => comparison(op, a, b),
        Operator::GtEq => comparison(op, a, b),
        Operator::And => and(a, b),
        Operator::Or => or(a, b),
    }
}
