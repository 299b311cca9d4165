//! The operand of a node, from those of the nodes that it names.

ghost use Rattle.std.specs.Prelude.{◌≡◌, ◌<◌, IfOk, is_some, length, true};
ghost use Rattle.pipe_columns.specs.Frame.{fields_of, ColumnsFit};
ghost use Rattle.pipe_exprs.specs.Operands.{AreHeld, HoldsValues, node_types, slot_at, type_at as type_of_node};
ghost use Rattle.pipe_exprs.specs.Trees.{tree};
ghost use Rattle.pipe_model.specs.Typing.{type_of};

use crate::arena::Arena;
use crate::columns::column_operand;
use crate::expression::{AExpr, Node};
use crate::operand::Operand;
use crate::rows::{cast_rows, chosen_rows, operator_rows};
use pipe_columns::{AnyValue, DataFrame, DataType};
use std::alloc::{AllocError, Global};

/// The operand of a node.
#[tactic(auto, using(crate::proofs::OperandFacts::slot_read))]
fn slot<'s, 'a>(slots: &'s [Operand<'a>], node: Node) -> &'s Operand<'a>
    requires { node.0 < length slots.now }
    ensures { result.now ≡ slot_at slots.now node.0 }
{
    &slots[node.0]
}

/// The type of a node, that of a count where there is none.
pub(crate) fn type_at(types: &[Option<DataType>], node: Node) -> DataType
    ensures { result ≡ type_of_node types.now node }
{
    match types.get(node.0) {
        Some(Some(dtype)) => *dtype,
        Some(None) | None => DataType::UInt32,
    }
}

/// The operand of a node, from those of the nodes that it names.
pub(crate) fn node_operand<'a>(
    alloc: Global,
    arena: &Arena,
    node: Node,
    types: &[Option<DataType>],
    frame: &'a DataFrame,
    slots: &[Operand<'a>],
) -> Result<Operand<'a>, AllocError>
    requires in_arena { node.0 < length arena.now }
    requires types { types.now ≡ node_types arena.now frame.now.columns }
    requires fit { ColumnsFit frame.now.columns }
    requires typed { is_some (type_of (tree arena.now node) (fields_of frame.now.columns)) ≡ true }
    requires held { AreHeld frame.now arena.now slots.now node }
    ensures { IfOk result (λ o. HoldsValues frame.now (tree arena.now node) o) }
{
    let height = frame.height();
    match arena.get(node) {
        AExpr::Column(name) => Ok(column_operand(frame, name)),
        AExpr::Literal { value, .. } => Ok(Operand::Constant(value.try_clone(alloc)?)),
        AExpr::Cast { expr, dtype } => {
            let values = cast_rows(alloc, height, slot(slots, *expr), *dtype)?;
            Ok(Operand::Own(values))
        }
        AExpr::BinaryExpr { left, op, right } => {
            let dtype = type_at(types, *left);
            let values = operator_rows(
                alloc,
                height,
                *op,
                dtype,
                slot(slots, *left),
                slot(slots, *right),
            )?;
            Ok(Operand::Own(values))
        }
        AExpr::Ternary {
            predicate,
            truthy,
            falsy,
        } => {
            let values = chosen_rows(
                alloc,
                height,
                slot(slots, *predicate),
                slot(slots, *truthy),
                slot(slots, *falsy),
            )?;
            Ok(Operand::Own(values))
        }
        AExpr::Alias(input, _) => slot(slots, *input).try_clone(alloc, height),
        AExpr::Agg(_) | AExpr::Len | AExpr::Filter { .. } | AExpr::Sort { .. } => {
            Ok(Operand::Constant(AnyValue::Null))
        }
    }
}
