//! Casts, operators and choices over so many rows.

ghost use Rattle.std.specs.Prelude.{◌≡◌, IfOk, is_some, map, true};
ghost use Rattle.std.specs.List.{range_with_len};
ghost use Rattle.pipe_exprs.specs.Operands.{has_height, operand_at, OperandFits};
ghost use Rattle.pipe_model.specs.Operators.{apply as apply_of, cast_value, chosen as choice};
ghost use Rattle.pipe_model.specs.Typing.{operator_type};

use crate::casts::cast;
use crate::logic::chosen;
use crate::operand::Operand;
use crate::operators::apply;
use pipe_columns::{AnyValue, DataType, Operator};
use std::alloc::{AllocError, Global};

/// The values of so many rows in another type.
#[tactic(auto, using(crate::proofs::RowFacts::rows_more))]
pub(crate) fn cast_rows(
    alloc: Global,
    height: usize,
    input: &Operand<'_>,
    dtype: DataType,
) -> Result<Vec<AnyValue>, AllocError>
    requires { has_height input.now height ≡ true }
    ensures { IfOk result (λ vs. vs.items
        ≡ map (λ row. cast_value dtype (operand_at input.now row)) (range_with_len 0 height)) }
{
    let mut values = Vec::with_capacity(alloc, height)?;
    for row in 0..height {
        values.push(cast(input.at(row), dtype))?;
    }
    Ok(values)
}

/// What an operator makes of two operands of a type, in so many rows.
#[tactic(auto, using(crate::proofs::RowFacts::rows_more))]
pub(crate) fn operator_rows(
    alloc: Global,
    height: usize,
    op: Operator,
    dtype: DataType,
    left: &Operand<'_>,
    right: &Operand<'_>,
) -> Result<Vec<AnyValue>, AllocError>
    requires typed { is_some (operator_type op dtype dtype) ≡ true }
    requires left { has_height left.now height ≡ true }
    requires right { has_height right.now height ≡ true }
    requires fits_left { OperandFits left.now height dtype }
    requires fits_right { OperandFits right.now height dtype }
    ensures { IfOk result (λ vs. vs.items ≡ map
        (λ row. apply_of op dtype (operand_at left.now row) (operand_at right.now row))
        (range_with_len 0 height)) }
{
    let mut values = Vec::with_capacity(alloc, height)?;
    for row in 0..height {
        values.push(apply(op, dtype, left.at(row), right.at(row)))?;
    }
    Ok(values)
}

/// What a predicate chooses of two operands, in so many rows.
#[tactic(auto, using(crate::proofs::RowFacts::rows_more))]
pub(crate) fn chosen_rows(
    alloc: Global,
    height: usize,
    predicate: &Operand<'_>,
    truthy: &Operand<'_>,
    falsy: &Operand<'_>,
) -> Result<Vec<AnyValue>, AllocError>
    requires predicate { has_height predicate.now height ≡ true }
    requires truthy { has_height truthy.now height ≡ true }
    requires falsy { has_height falsy.now height ≡ true }
    ensures { IfOk result (λ vs. vs.items ≡ map
        (λ row. choice (operand_at predicate.now row) (operand_at truthy.now row)
        (operand_at falsy.now row))
        (range_with_len 0 height)) }
{
    let mut values = Vec::with_capacity(alloc, height)?;
    for row in 0..height {
        values.push(chosen(predicate.at(row), truthy.at(row), falsy.at(row)).try_clone(alloc)?)?;
    }
    Ok(values)
}
