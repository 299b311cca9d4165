//! The evaluation of a root: each node that it reaches once, in the order of the arena.

ghost use Rattle.std.specs.Prelude.{◌≡◌, ◌<◌, ◌≤◌, IfOk, OnOk, is_some, length, slice_index, true};
ghost use Rattle.pipe_columns.specs.Frame.{fields_of, ColumnsFit};
ghost use Rattle.pipe_exprs.specs.Operands.{AreHeld, HoldsValues, KeepsUsed, node_types as types_of, released, released_all};
ghost use Rattle.pipe_exprs.specs.Literals.{HaveUtf8Literals};
ghost use Rattle.pipe_exprs.specs.Trees.{children, children_below, tree};
ghost use Rattle.pipe_model.specs.Typing.{type_of};

use crate::arena::Arena;
use crate::expression::{AExpr, Node};
use crate::last_uses::last_uses;
use crate::node_operand::node_operand;
use crate::operand::Operand;
use pipe_columns::{AnyValue, DataFrame, DataType};
use std::alloc::{AllocError, Global};
use std::mem;

/// Drops the operand of a node where that was its last use.
fn release_node(slots: &mut [Operand<'_>], node: Node, uses: &[usize], user: usize)
    requires slot { node.0 < length slots.old }
    requires used { node.0 < length uses.now }
    ensures { slots.new ≡ released uses.now user slots.old node }
{
    if uses[node.0] == user {
        slots[node.0] = Operand::Constant(AnyValue::Null);
    }
}

/// Drops the operands that an expression used for the last time.
fn release(slots: &mut [Operand<'_>], expr: &AExpr, uses: &[usize], user: usize)
    requires slots { children_below (length slots.old) expr.now ≡ true }
    requires uses { children_below (length uses.now) expr.now ≡ true }
    ensures { slots.new ≡ released_all uses.now user slots.old (children expr.now) }
{
    match expr {
        AExpr::Column(_) | AExpr::Literal { .. } | AExpr::Len => {}
        AExpr::Cast { expr, .. } => release_node(slots, *expr, uses, user),
        AExpr::BinaryExpr { left, right, .. } => {
            release_node(slots, *left, uses, user);
            release_node(slots, *right, uses, user);
        }
        AExpr::Ternary {
            predicate,
            truthy,
            falsy,
        } => {
            release_node(slots, *predicate, uses, user);
            release_node(slots, *truthy, uses, user);
            release_node(slots, *falsy, uses, user);
        }
        AExpr::Alias(input, _) => release_node(slots, *input, uses, user),
        AExpr::Agg(agg) => release_node(slots, agg.input(), uses, user),
        AExpr::Filter { input, by } => {
            release_node(slots, *input, uses, user);
            release_node(slots, *by, uses, user);
        }
        AExpr::Sort { expr } => release_node(slots, *expr, uses, user),
    }
}

/// The operand of a node that is reached. An alias takes the values of its input, where that was
/// their last use.
fn next_operand<'a>(
    alloc: Global,
    arena: &Arena,
    node: Node,
    types: &[Option<DataType>],
    uses: &[usize],
    frame: &'a DataFrame,
    slots: &mut Vec<Operand<'a>>,
) -> Result<Operand<'a>, AllocError>
    requires in_arena { node.0 < length arena.now }
    requires types { types.now ≡ types_of arena.now frame.now.columns }
    requires fit { ColumnsFit frame.now.columns }
    requires typed { is_some (type_of (tree arena.now node) (fields_of frame.now.columns)) ≡ true }
    requires held { AreHeld frame.now arena.now slots.old.items node }
    requires earlier { node.0 ≤ length slots.old.items }
    requires used { node.0 < length uses.now }
    ensures ok { IfOk result (λ o. HoldsValues frame.now (tree arena.now node) o) }
    ensures kept { OnOk result (KeepsUsed uses.now node.0 slots.old.items slots.new.items) }
{
    let expr = arena.get(node);
    if let AExpr::Alias(input, _) = expr {
        if uses[input.0] == node.0 {
            let gone = Operand::Constant(AnyValue::Null);
            return Ok(mem::replace(&mut slots[input.0], gone));
        }
    }
    let operand = node_operand(alloc, arena, node, types, frame, slots)?;
    release(slots, expr, uses, node.0);
    Ok(operand)
}

/// The operand of a root: each node that it reaches is evaluated once, in the order of the arena.
pub(crate) fn root_operand<'a>(
    alloc: Global,
    arena: &Arena,
    root: Node,
    types: &[Option<DataType>],
    frame: &'a DataFrame,
) -> Result<Operand<'a>, AllocError>
    requires in_arena { root.0 < length arena.now }
    requires types { types.now ≡ types_of arena.now frame.now.columns }
    requires fit { ColumnsFit frame.now.columns }
    requires typed { is_some (type_of (tree arena.now root) (fields_of frame.now.columns)) ≡ true }
    ensures values { IfOk result (λ o. HoldsValues frame.now (tree arena.now root) o) }
    ensures utf8 { OnOk result (HaveUtf8Literals arena.now) }
{
    let uses = last_uses(alloc, arena, root)?;
    let mut slots = Vec::with_capacity(alloc, uses.len())?;
    for place in 0..uses.len() {
        let operand = if uses[place] > 0 {
            next_operand(alloc, arena, Node(place), types, &uses, frame, &mut slots)?
        } else {
            Operand::Constant(AnyValue::Null)
        };
        slots.push(operand)?;
    }
    Ok(slots.pop().unwrap())
}
