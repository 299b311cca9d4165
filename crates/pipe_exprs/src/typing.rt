//! The types of operators, casts and aggregates.

ghost use Rattle.std.specs.Prelude.{◌≡◌, ◌&&◌, true, None, Some, option_and_then, if◌then◌else◌};
ghost use Rattle.pipe_columns.specs.DataType.{sum_type, is_castable, is_input, is_integer, same_type};
ghost use Rattle.pipe_exprs.specs.ExprFacts.{cast_type};
ghost use Rattle.pipe_exprs.specs.Trees.{aggregation};
ghost use Rattle.pipe_model.specs.Typing.{aggregate_type, both, mean_type, operator_type, shared_type, where_boolean};

use crate::expression::IRAggExpr;
use pipe_columns::{DataType, Operator};

/// Whether two types are the same.
fn is_same(left: DataType, right: DataType) -> bool
    ensures { result ≡ same_type left right }
{
    left as u8 == right as u8
}

/// Whether the values of a type are whole numbers of up to 64 bits.
pub fn is_integer(dtype: DataType) -> bool
    ensures { result ≡ is_integer dtype }
{
    match dtype {
        DataType::Int8
        | DataType::Int16
        | DataType::Int32
        | DataType::Int64
        | DataType::UInt8
        | DataType::UInt16
        | DataType::UInt32
        | DataType::UInt64 => true,
        DataType::Boolean | DataType::Int128 | DataType::Date | DataType::String => false,
    }
}

/// Whether a column of an input may have a type.
pub fn is_input(dtype: DataType) -> bool
    ensures { result ≡ is_input dtype }
{
    dtype != DataType::Int128
}

/// Whether a cast takes a type, and gives it.
fn is_castable(dtype: DataType) -> bool
    ensures { result ≡ is_castable dtype }
{
    is_integer(dtype) || dtype == DataType::Boolean || dtype == DataType::Date
}

/// The type of a cast.
pub(crate) fn cast_type(from: Option<DataType>, to: DataType) -> Option<DataType>
    ensures { result ≡ cast_type from to }
{
    if is_castable(from?) && is_castable(to) {
        Some(to)
    } else {
        None
    }
}

/// The type of a test of values of a type that passes.
fn type_where(test: bool, dtype: DataType) -> Option<DataType>
    ensures { result ≡ (if test then Some dtype else None) }
{
    if test { Some(dtype) } else { None }
}

/// The type of an operator over two types.
fn operator_type(op: Operator, left: DataType, right: DataType) -> Option<DataType>
    ensures { result ≡ operator_type op left right }
{
    if !is_same(left, right) {
        return None;
    }
    match op {
        Operator::Plus
        | Operator::Minus
        | Operator::Multiply
        | Operator::FloorDivide
        | Operator::Modulus => type_where(is_integer(left), left),
        Operator::Eq
        | Operator::NotEq
        | Operator::Lt
        | Operator::LtEq
        | Operator::Gt
        | Operator::GtEq => type_where(is_input(left), DataType::Boolean),
        Operator::And | Operator::Or => { type_where(left == DataType::Boolean, DataType::Boolean) }
    }
}

/// The type of an operator over two operands.
pub(crate) fn binary_type(
    op: Operator,
    left: Option<DataType>,
    right: Option<DataType>,
) -> Option<DataType>
    ensures { result ≡ both (operator_type op) left right }
{
    operator_type(op, left?, right?)
}

/// The type of what follows a Boolean.
pub(crate) fn type_after(test: Option<DataType>, dtype: Option<DataType>) -> Option<DataType>
    ensures { result ≡ where_boolean test dtype }
{
    if test? == DataType::Boolean {
        dtype
    } else {
        None
    }
}

/// The type of two branches.
pub(crate) fn branch_type(truthy: Option<DataType>, falsy: Option<DataType>) -> Option<DataType>
    ensures { result ≡ both (shared_type (λ t. true)) truthy falsy }
{
    let dtype = truthy?;
    type_where(is_same(dtype, falsy?), dtype)
}

/// The type of a sum.
pub fn sum_type(dtype: DataType) -> DataType
    ensures { result ≡ sum_type dtype }
{
    match dtype {
        DataType::Boolean => DataType::UInt32,
        DataType::Int8 | DataType::Int16 | DataType::UInt8 | DataType::UInt16 => DataType::Int64,
        other => other,
    }
}

/// The type of a mean.
fn mean_type(dtype: DataType) -> DataType
    ensures { result ≡ mean_type dtype }
{
    if is_integer(dtype) || dtype == DataType::Boolean {
        DataType::Int128
    } else {
        dtype
    }
}

/// The type of an aggregate of values of a type.
fn aggregate_type(agg: &IRAggExpr, dtype: DataType) -> DataType
    ensures { result ≡ aggregate_type (aggregation agg.now) dtype }
{
    match agg {
        IRAggExpr::Sum(_) => sum_type(dtype),
        IRAggExpr::Mean(_) => mean_type(dtype),
        IRAggExpr::Count(..) | IRAggExpr::NUnique(_) => DataType::UInt32,
        IRAggExpr::First(_)
        | IRAggExpr::Last(_)
        | IRAggExpr::Min { .. }
        | IRAggExpr::Max { .. }
        | IRAggExpr::Median(_) => dtype,
    }
}

/// The type of an aggregate of an input.
pub(crate) fn agg_type(agg: &IRAggExpr, input: Option<DataType>) -> Option<DataType>
    ensures { result ≡ option_and_then
        (λ t. if is_input t then Some (aggregate_type (aggregation agg.now) t) else None) input }
{
    let dtype = input?;
    type_where(is_input(dtype), aggregate_type(agg, dtype))
}
