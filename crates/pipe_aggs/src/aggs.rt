//! What aggregates are fed, and which add dates up.

ghost use Rattle.std.specs.Prelude.{◌≡◌, option_copied};
ghost use Rattle.pipe_model.specs.Convertible.{unaliased};
ghost use Rattle.pipe_aggs.specs.Faults.{adds, adds_dates};
ghost use Rattle.pipe_aggs.specs.KnownArena.{adds_dates_by, fed_by};
ghost use Rattle.pipe_model.specs.Output.{input_type};
ghost use Rattle.pipe_model.specs.WrittenTree.{agg_tree};
ghost use Rattle.pipe_exprs.specs.Trees.{aggregation, tree};

use crate::known::Known;
use pipe_columns::DataType;
use pipe_exprs::{AExpr, IRAggExpr, Node, NodeFacts, facts_at};

/// The type of what an expression without alias is fed. A count of rows is fed nulls of UInt32.
fn fed(known: &[NodeFacts], expr: Option<&AExpr>) -> DataType
    ensures { result ≡ fed_by known.now (option_copied expr.entry) }
{
    match expr {
        Some(AExpr::Agg(agg)) => match facts_at(known, agg.input()).dtype {
            Some(dtype) => dtype,
            None => DataType::UInt32,
        },
        _ => DataType::UInt32,
    }
}

/// Whether an aggregate adds values up.
fn adds(agg: &IRAggExpr) -> bool
    ensures { result ≡ adds (aggregation agg.now) }
{
    match agg {
        IRAggExpr::Sum(_) | IRAggExpr::Mean(_) => true,
        IRAggExpr::First(_)
        | IRAggExpr::Last(_)
        | IRAggExpr::Count(..)
        | IRAggExpr::Min { .. }
        | IRAggExpr::Max { .. }
        | IRAggExpr::Median(_)
        | IRAggExpr::NUnique(_) => false,
    }
}

/// Whether an expression without alias adds dates up.
fn adds_dates(known: &[NodeFacts], expr: Option<&AExpr>) -> bool
    ensures { result ≡ adds_dates_by known.now (option_copied expr.entry) }
{
    match expr {
        Some(AExpr::Agg(agg)) => adds(agg) && fed(known, expr) == DataType::Date,
        _ => false,
    }
}

impl<'a> Known<'a> {
    /// The type of what the aggregate of a node is fed.
    pub(crate) fn fed(&self, node: Node) -> DataType
        ensures { result ≡ input_type self.now.fields (agg_tree (tree self.now.exprs node)).input }
    {
        fed(self.all_facts(), self.expr(self.unaliased(node)))
    }

    /// Whether a node, under one alias or none, adds dates up.
    pub(crate) fn adds_dates(&self, node: Node) -> bool
        ensures { result ≡ adds_dates self.now.fields (unaliased (tree self.now.exprs node)) }
    {
        adds_dates(self.all_facts(), self.expr(self.unaliased(node)))
    }
}
