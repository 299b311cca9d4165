//! The last use of each node that a root reaches.

ghost use Rattle.std.specs.Prelude.{◌≡◌, ◌<◌, IfOk, OnOk, length, true};
ghost use Rattle.pipe_exprs.specs.Literals.{HaveUtf8Literals};
ghost use Rattle.pipe_exprs.specs.Trees.{children, children_below, IsArena};
ghost use Rattle.pipe_exprs.specs.Uses.{AreLastUses, noted, noted_all};

use crate::arena::Arena;
use crate::expression::{AExpr, Node};
use std::alloc::{AllocError, Global};

/// Notes that a node is used by another one.
fn note_use(uses: &mut [usize], node: Node, user: usize)
    requires { node.0 < length uses.old }
    ensures { uses.new ≡ noted user uses.old node }
{
    uses[node.0] = uses[node.0].max(user);
}

/// Notes that an expression uses the nodes that it names.
fn note_children(uses: &mut [usize], expr: &AExpr, user: usize)
    requires { children_below (length uses.old) expr.now ≡ true }
    ensures { uses.new ≡ noted_all user uses.old (children expr.now) }
{
    match expr {
        AExpr::Column(_) | AExpr::Literal { .. } | AExpr::Len => {}
        AExpr::Cast { expr, .. } => note_use(uses, *expr, user),
        AExpr::BinaryExpr { left, right, .. } => {
            note_use(uses, *left, user);
            note_use(uses, *right, user);
        }
        AExpr::Ternary {
            predicate,
            truthy,
            falsy,
        } => {
            note_use(uses, *predicate, user);
            note_use(uses, *truthy, user);
            note_use(uses, *falsy, user);
        }
        AExpr::Alias(input, _) => note_use(uses, *input, user),
        AExpr::Agg(agg) => note_use(uses, agg.input(), user),
        AExpr::Filter { input, by } => {
            note_use(uses, *input, user);
            note_use(uses, *by, user);
        }
        AExpr::Sort { expr } => note_use(uses, *expr, user),
    }
}

/// The last use of each node up to a root: 0 where the root doesn't reach it.
pub(crate) fn last_uses(alloc: Global, arena: &Arena, root: Node) -> Result<Vec<usize>, AllocError>
    requires in_arena { root.0 < length arena.now }
    ensures uses { IfOk result (λ uses. AreLastUses arena.now root 0 uses.items) }
    ensures earlier { OnOk result (IsArena arena.now) }
    ensures utf8 { OnOk result (HaveUtf8Literals arena.now) }
{
    let mut uses = Vec::new(alloc);
    for _ in 0..root.0 {
        uses.push(0)?;
    }
    uses.push(arena.len())?;
    for step in 0..root.0 + 1 {
        let user = root.0 - step;
        if uses[user] > 0 {
            note_children(&mut uses, arena.get(Node(user)), user);
        }
    }
    Ok(uses)
}
