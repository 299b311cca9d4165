//! Which expressions keys and aggregates may be.

ghost use Rattle.std.specs.Prelude.{◌≡◌, IfNone, IfSome, Some, is_some};
ghost use Rattle.std.specs.List.{list_all, list_any};
ghost use Rattle.pipe_aggs.specs.CheckedQuery.{HasShape, IsSound};
ghost use Rattle.pipe_model.specs.Convertible.{convertible, unaliased};
ghost use Rattle.pipe_aggs.specs.Faults.{adds_dates, all_exprs, first_fault, is_typed};
ghost use Rattle.pipe_aggs.specs.QueryTrees.{agg_exprs, key_exprs};
ghost use Rattle.pipe_exprs.specs.Literals.{HaveUtf8Literals};
ghost use Rattle.pipe_exprs.specs.Trees.{tree};
ghost use Rattle.pipe_columns.specs.DataType.{is_input};
ghost use Rattle.pipe_model.specs.Typing.{is_row_wise, knows_columns, type_of};

use crate::known::Known;
use crate::query::Query;
use crate::query_fault::QueryFault;
use pipe_columns::Field;
use pipe_exprs::{Node, is_input};

impl<'a> Known<'a> {
    /// Whether some nodes know their columns.
    fn know_columns(&self, nodes: &[Node]) -> bool
        ensures { result
            ≡ list_all (λ n. knows_columns (tree self.now.exprs n) self.now.fields) nodes.now }
    {
        nodes.iter().all(|node| self.facts(*node).knows_columns)
    }

    /// Whether some nodes have types.
    fn have_types(&self, nodes: &[Node]) -> bool
        ensures { result
            ≡ list_all (λ n. is_some (type_of (tree self.now.exprs n) self.now.fields)) nodes.now }
    {
        nodes.iter().all(|node| self.facts(*node).dtype.is_some())
    }

    /// Whether some nodes have a value in each row.
    fn are_row_wise(&self, nodes: &[Node]) -> bool
        ensures { result ≡ list_all (λ n. is_row_wise (tree self.now.exprs n)) nodes.now }
    {
        nodes.iter().all(|node| self.facts(*node).row_wise)
    }

    /// Whether some nodes are aggregates that can be kept.
    fn are_convertible(&self, nodes: &[Node]) -> bool
        ensures { result
            ≡ list_all (λ n. convertible (tree self.now.exprs n) self.now.fields) nodes.now }
    {
        nodes.iter().all(|node| self.is_convertible(*node))
    }

    /// Whether one of some nodes adds dates up.
    fn add_dates(&self, nodes: &[Node]) -> bool
        ensures { result
            ≡ list_any (λ n. adds_dates self.now.fields (unaliased (tree self.now.exprs n)))
            nodes.now }
    {
        nodes.iter().any(|node| self.adds_dates(*node))
    }
}

/// Whether some fields are those of an input.
fn are_inputs(fields: &[Field]) -> bool
    ensures { result ≡ list_all (λ f. is_input f.dtype) fields.now }
{
    fields.iter().all(|field| is_input(field.dtype))
}

/// Whether the keys and aggregates of a query know their columns.
fn all_know_columns(query: &Query, known: &Known<'_>) -> bool
    requires { known.now ≡ record { exprs = query.now.arena; fields = query.now.schema } }
    ensures { result ≡ all_exprs (λ e. knows_columns e query.now.schema) query.now }
{
    known.know_columns(&query.keys) && known.know_columns(&query.aggs)
}

/// Whether the keys and aggregates of a query have types.
fn all_have_types(query: &Query, known: &Known<'_>) -> bool
    requires { known.now ≡ record { exprs = query.now.arena; fields = query.now.schema } }
    ensures { result ≡ all_exprs (λ e. is_some (type_of e query.now.schema)) query.now }
{
    known.have_types(&query.keys) && known.have_types(&query.aggs)
}

/// Whether a query has types.
fn is_typed(query: &Query, known: &Known<'_>) -> bool
    requires { known.now ≡ record { exprs = query.now.arena; fields = query.now.schema } }
    ensures { result ≡ is_typed query.now }
{
    are_inputs(query.schema.fields()) && all_have_types(query, known)
}

/// Whether the keys of a query have a value in each row.
fn has_row_wise_keys(query: &Query, known: &Known<'_>) -> bool
    requires { known.now ≡ record { exprs = query.now.arena; fields = query.now.schema } }
    ensures { result ≡ list_all is_row_wise (key_exprs query.now) }
{
    known.are_row_wise(&query.keys)
}

/// Whether the aggregates of a query can be kept.
fn has_convertible_aggs(query: &Query, known: &Known<'_>) -> bool
    requires { known.now ≡ record { exprs = query.now.arena; fields = query.now.schema } }
    ensures { result ≡ list_all (λ e. convertible e query.now.schema) (agg_exprs query.now) }
{
    known.are_convertible(&query.aggs)
}

/// Whether an aggregate of a query adds dates up.
fn has_sum_of_dates(query: &Query, known: &Known<'_>) -> bool
    requires { known.now ≡ record { exprs = query.now.arena; fields = query.now.schema } }
    ensures { result
        ≡ list_any (λ e. adds_dates query.now.schema (unaliased e)) (agg_exprs query.now) }
{
    known.add_dates(&query.aggs)
}

/// The first fault of the expressions of a query.
pub(crate) fn expr_fault(query: &Query, known: &Known<'_>) -> Option<QueryFault>
    requires known { known.now ≡ record { exprs = query.now.arena; fields = query.now.schema } }
    requires shape { HasShape query.now }
    requires texts { HaveUtf8Literals query.now.arena }
    ensures some { IfSome result (λ f. first_fault query.now ≡ Some f) }
    ensures none { IfNone result (IsSound query.now) }
{
    if !all_know_columns(query, known) {
        Some(QueryFault::UnknownColumn)
    } else if !is_typed(query, known) {
        Some(QueryFault::IllTyped)
    } else if !has_row_wise_keys(query, known) {
        Some(QueryFault::KeyHasAggregate)
    } else if !has_convertible_aggs(query, known) {
        Some(QueryFault::NotConvertible)
    } else if has_sum_of_dates(query, known) {
        Some(QueryFault::SumOfDate)
    } else {
        None
    }
}
