//! Expressions of which each names only earlier ones.

ghost use Rattle.std.specs.Prelude.{◌≡◌, ◌<◌, ◌++◌, ◌∷◌, ◌↔◌, [], length, IfOk, OnErr, OnOk, IsErrOf, slice_get, option_copied, Some, true, false};
ghost use Rattle.pipe_exprs.specs.declared.arena.AddError.TheVariants as add_error;
ghost use Rattle.pipe_exprs.specs.Literals.{HasUtf8Literal, HaveUtf8Literals};
ghost use Rattle.pipe_exprs.specs.Trees.{children_below, IsArena};

use crate::expression::{AExpr, Node};
use std::alloc::Global;
use std::marker::Model;

/// Why an expression was not added: it names a node that is not there, or memory is wanting.
#[derive(Debug, Drop, PartialEq, Eq)]
pub enum AddError {
    NoChild,
    Memory,
}

/// Expressions of which each names only earlier ones.
#[derive(Drop)]
pub struct Arena {
    exprs: Vec<AExpr>,
}

impl Model for Arena {
    ghost use Rattle.std.specs.Prelude.{List};
    ghost use Rattle.pipe_exprs.specs.declared.expression.AExpr.{AExpr};
    ghost use Rattle.pipe_exprs.specs.Literals.{HaveUtf8Literals};
    ghost use Rattle.pipe_exprs.specs.Trees.{IsArena};

    ghost Value = { List AExpr };

    ghost view = { λ a. a.exprs.items };

    ghost invariant = { λ a. IsArena a.exprs.items × HaveUtf8Literals a.exprs.items };
}

/// Whether an expression names only nodes below a number. The look at a literal shows that its text
/// is in UTF-8.
fn has_children(expr: &AExpr, count: usize) -> bool
    ensures below { result ≡ children_below count expr.now }
    ensures utf8 { HasUtf8Literal expr.now }
{
    match expr {
        AExpr::Column(_) | AExpr::Len => true,
        AExpr::Literal { dtype, value } => {
            // Called for what its clauses say.
            let _fits = value.fits(*dtype);
            true
        }
        AExpr::Cast { expr, .. } | AExpr::Sort { expr } => expr.0 < count,
        AExpr::BinaryExpr { left, right, .. } => left.0 < count && right.0 < count,
        AExpr::Ternary {
            predicate,
            truthy,
            falsy,
        } => predicate.0 < count && truthy.0 < count && falsy.0 < count,
        AExpr::Alias(input, _) => input.0 < count,
        AExpr::Agg(agg) => agg.input().0 < count,
        AExpr::Filter { input, by } => input.0 < count && by.0 < count,
    }
}

impl Arena {
    /// An arena without expressions.
    pub fn new(alloc: Global) -> Arena
        ensures { result ≡ [] }
    {
        Arena {
            exprs: Vec::new(alloc),
        }
    }

    /// How many expressions there are.
    pub fn len(&self) -> usize
        ensures count { result ≡ length self.now }
        ensures earlier { IsArena self.now }
        ensures utf8 { HaveUtf8Literals self.now }
    {
        self.exprs.len()
    }

    /// Adds an expression whose children are there, and gives its node.
    pub fn add(&mut self, expr: AExpr) -> Result<Node, AddError>
        ensures ok { OnOk result (self.new ≡ self.old ++ expr ∷ []) }
        ensures node { IfOk result (λ n. n.0 ≡ length self.old) }
        ensures children { OnOk result (children_below (length self.old) expr ≡ true) }
        ensures no_child { IsErrOf result add_error.NoChild
            → children_below (length self.old) expr ≡ false }
        ensures err { OnErr result (self.new ≡ self.old) }
    {
        let count = self.exprs.len();
        if !has_children(&expr, count) {
            return Err(AddError::NoChild);
        }
        match self.exprs.push(expr) {
            Ok(()) => Ok(Node(count)),
            Err(_) => Err(AddError::Memory),
        }
    }

    /// The expression of a node that is there.
    pub fn get(&self, node: Node) -> &AExpr
        requires { node.0 < length self.now }
        ensures some { slice_get self.now node.0 ≡ Some result.now }
        ensures earlier { IsArena self.now }
        ensures utf8 { HaveUtf8Literals self.now }
    {
        &self.exprs[node.0]
    }

    /// The expression of a node, where it is there.
    pub fn find(&self, node: Node) -> Option<&AExpr>
        ensures found { option_copied result ≡ slice_get self.now node.0 }
        ensures earlier { IsArena self.now }
        ensures utf8 { HaveUtf8Literals self.now }
    {
        self.exprs.get(node.0)
    }
}
