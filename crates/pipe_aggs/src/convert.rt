//! Which aggregates a table of groups can be asked to keep.

ghost use Rattle.std.specs.Prelude.{◌≡◌, ◌<◌, ◌&&◌, length, IfOk, option_copied};
ghost use Rattle.pipe_model.specs.Convertible.{convertible, is_some_integer, keeps};
ghost use Rattle.pipe_aggs.specs.KnownArena.{kept_by};
ghost use Rattle.pipe_exprs.specs.Trees.{aggregation, tree};

use crate::known::Known;
use pipe_columns::{DataType, Schema};
use pipe_exprs::{AExpr, Arena, IRAggExpr, Node, NodeFacts, facts_at, is_integer};
use std::alloc::{AllocError, Global};

/// Whether there is an integer type.
fn is_some_integer(dtype: Option<DataType>) -> bool
    ensures { result ≡ is_some_integer dtype }
{
    match dtype {
        Some(dtype) => is_integer(dtype),
        None => false,
    }
}

/// Whether a table of groups can keep an aggregate of an input of a type, or of none.
fn keeps(agg: &IRAggExpr, input: Option<DataType>) -> bool
    ensures { result ≡ keeps (aggregation agg.now) input }
{
    match agg {
        IRAggExpr::Sum(_) | IRAggExpr::First(_) | IRAggExpr::Last(_) | IRAggExpr::Mean(_) => true,
        IRAggExpr::Count(_, include_nulls) => !*include_nulls,
        IRAggExpr::Min { propagate_nans, .. } | IRAggExpr::Max { propagate_nans, .. } => {
            !*propagate_nans && is_some_integer(input)
        }
        IRAggExpr::Median(_) | IRAggExpr::NUnique(_) => false,
    }
}

/// Whether an expression without alias is an aggregate that can be kept.
fn is_kept(known: &[NodeFacts], expr: Option<&AExpr>) -> bool
    ensures { result ≡ kept_by known.now (option_copied expr.entry) }
{
    match expr {
        None | Some(AExpr::Len) => true,
        Some(AExpr::Agg(agg)) => {
            let input = facts_at(known, agg.input());
            input.row_wise && keeps(agg, input.dtype)
        }
        Some(_) => false,
    }
}

impl<'a> Known<'a> {
    /// Whether a node, under one alias or none, is an aggregate that can be kept.
    pub(crate) fn is_convertible(&self, node: Node) -> bool
        ensures { result ≡ convertible (tree self.now.exprs node) self.now.fields }
    {
        is_kept(self.all_facts(), self.expr(self.unaliased(node)))
    }
}

/// Whether an expression, under one alias or none, is an aggregate that a table of groups can keep.
pub fn can_convert_to_hash_agg(
    alloc: Global,
    node: Node,
    arena: &Arena,
    schema: &Schema,
) -> Result<bool, AllocError>
    requires { node.0 < length arena.now }
    ensures { IfOk result (λ b. b ≡ convertible (tree arena.now node) schema.now) }
{
    let known = Known::new(alloc, arena, schema)?;
    Ok(known.is_convertible(node))
}
