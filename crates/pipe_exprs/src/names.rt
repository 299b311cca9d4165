//! The names of expressions, and what stands under an alias.

ghost use Rattle.std.specs.Prelude.{◌≡◌, option_copied};
ghost use Rattle.pipe_model.specs.Expr.{name_of};
ghost use Rattle.pipe_exprs.specs.Nodes.{name_giver, own_name};
ghost use Rattle.pipe_exprs.specs.Trees.{alias_input, tree};

use crate::arena::Arena;
use crate::expression::{AExpr, Node};

/// The node under an alias, none where the expression is no alias.
pub fn alias_input(expr: Option<&AExpr>) -> Option<Node>
    ensures { result ≡ alias_input (option_copied expr.entry) }
{
    match expr {
        Some(AExpr::Alias(input, _)) => Some(*input),
        _ => None,
    }
}

/// The node whose name an expression takes.
fn name_giver(expr: Option<&AExpr>) -> Option<Node>
    ensures { result ≡ name_giver (option_copied expr.entry) }
{
    match expr? {
        AExpr::Column(_) | AExpr::Literal { .. } | AExpr::Alias(..) | AExpr::Len => None,
        AExpr::Cast { expr, .. } | AExpr::Sort { expr } => Some(*expr),
        AExpr::BinaryExpr { left, .. } => Some(*left),
        AExpr::Ternary { truthy, .. } => Some(*truthy),
        AExpr::Filter { input, .. } => Some(*input),
        AExpr::Agg(agg) => Some(agg.input()),
    }
}

/// The name of an expression that takes none.
fn own_name(expr: Option<&AExpr>) -> &str
    ensures { result.now ≡ own_name (option_copied expr.entry) }
{
    match expr {
        Some(AExpr::Column(name)) => name.as_str(),
        Some(AExpr::Alias(_, name)) => name.as_str(),
        Some(AExpr::Literal { .. }) => "literal",
        _ => "len",
    }
}

impl Arena {
    /// The name of a node's field; one that isn't there counts as `Len`.
    pub fn name(&self, node: Node) -> &str
        ensures { result.now ≡ name_of (tree self.now node) }
    {
        let mut at = node;
        while let Some(giver) = name_giver(self.find(at)) {
            at = giver;
        }
        own_name(self.find(at))
    }
}
