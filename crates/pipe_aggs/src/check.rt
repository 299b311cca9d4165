//! The check of a query.

ghost use Rattle.std.specs.Prelude.{◌≡◌, IfOk, IfNone, IfSome, IsErrOf, OnOk, None, Some, map, nat_lt};
ghost use Rattle.std.specs.List.{All, list_all};
ghost use Rattle.pipe_aggs.specs.declared.check.CheckError.TheVariants as error;
ghost use Rattle.pipe_aggs.specs.declared.query_fault.QueryFault.{QueryFault};
ghost use Rattle.pipe_aggs.specs.CheckedQuery.{HasShape, input_types, IsSound};
ghost use Rattle.pipe_aggs.specs.Faults.{first_fault, has_nodes, is_negative_slice};
ghost use Rattle.pipe_aggs.specs.HashAggs.{input_of, IsThere, prototypes};
ghost use Rattle.pipe_exprs.specs.Literals.{HaveUtf8Literals};
ghost use Rattle.pipe_model.specs.Output.{key_types};
ghost use Rattle.pipe_aggs.specs.QueryTrees.{query_tree};

use crate::checked_query::CheckedQuery;
use crate::doubles::has_double;
use crate::hash_agg::AggInput;
use crate::known::Known;
use crate::output::output_of;
use crate::query::Query;
use crate::query_fault::QueryFault;
use crate::sound::expr_fault;
use pipe_columns::DataType;
use pipe_exprs::Node;
use pipe_running::AggregateFunction;
use std::alloc::{AllocError, Global};

/// Why a query was not checked to its end: its first fault, or memory is wanting.
#[derive(Debug, Drop, PartialEq, Eq)]
pub enum CheckError {
    Fault(QueryFault),
    Memory,
}

impl From<AllocError> for CheckError {
    ghost from_gives = { λ _ e. e ≡ error.Memory };

    fn from(_error: AllocError) -> CheckError {
        CheckError::Memory
    }
}

/// Whether a slice begins before the first group.
fn is_negative_slice(slice: Option<(i64, usize)>) -> bool
    ensures { result ≡ is_negative_slice slice }
{
    match slice {
        Some((offset, _)) => offset < 0,
        None => false,
    }
}

/// Whether some nodes are below a number.
fn are_below(nodes: &[Node], count: usize) -> bool
    ensures { result ≡ list_all (λ n. nat_lt n.0 count) nodes.now }
{
    nodes.iter().all(|node| node.0 < count)
}

/// The types of the keys of a query.
fn key_types_of(
    alloc: Global,
    query: &Query,
    known: &Known<'_>,
) -> Result<Vec<DataType>, AllocError>
    requires { known.now ≡ record { exprs = query.now.arena; fields = query.now.schema } }
    ensures { IfOk result (λ types. types.items ≡ key_types (query_tree query.now)) }
{
    let mut types = Vec::with_capacity(alloc, query.keys.len())?;
    for key in &query.keys {
        types.push(known.dtype(*key))?;
    }
    Ok(types)
}

/// The types of what the aggregates of a query are fed.
fn input_types_of(
    alloc: Global,
    query: &Query,
    known: &Known<'_>,
) -> Result<Vec<DataType>, AllocError>
    requires { known.now ≡ record { exprs = query.now.arena; fields = query.now.schema } }
    ensures { IfOk result (λ types. types.items ≡ input_types (query_tree query.now)) }
{
    let mut types = Vec::with_capacity(alloc, query.aggs.len())?;
    for agg in &query.aggs {
        types.push(known.fed(*agg))?;
    }
    Ok(types)
}

/// What the aggregates of a query are fed.
fn inputs_of(alloc: Global, query: &Query, known: &Known<'_>) -> Result<Vec<AggInput>, AllocError>
    requires { known.now ≡ record { exprs = query.now.arena; fields = query.now.schema } }
    ensures fed { IfOk result (λ inputs. map (input_of query.now.arena) inputs.items
        ≡ map (λ a. a.input) (query_tree query.now).aggs) }
    ensures there { IfOk result (λ inputs. All (IsThere query.now.arena) inputs.items) }
{
    let mut inputs = Vec::with_capacity(alloc, query.aggs.len())?;
    for agg in &query.aggs {
        inputs.push(known.agg_input(*agg))?;
    }
    Ok(inputs)
}

/// The running aggregates of a query, before any row.
fn prototypes_of(
    alloc: Global,
    query: &Query,
    known: &Known<'_>,
) -> Result<Vec<AggregateFunction>, AllocError>
    requires { known.now ≡ record { exprs = query.now.arena; fields = query.now.schema } }
    ensures { IfOk result (λ functions. functions.items ≡ prototypes (query_tree query.now)) }
{
    let mut functions = Vec::with_capacity(alloc, query.aggs.len())?;
    for agg in &query.aggs {
        functions.push(known.prototype(*agg))?;
    }
    Ok(functions)
}

impl Query {
    /// Whether the keys and aggregates are in the arena.
    fn has_nodes(&self) -> bool
        ensures nodes { result ≡ has_nodes self.now }
        ensures texts { HaveUtf8Literals self.now.arena }
    {
        let count = self.arena.len();
        are_below(&self.keys, count) && are_below(&self.aggs, count)
    }

    /// The first fault of the names, the number of keys and the nodes.
    fn shape_fault(&self) -> Option<QueryFault>
        ensures some { IfSome result (λ f. first_fault self.now ≡ Some f) }
        ensures none { IfNone result (HasShape self.now) }
        ensures texts { IfNone result (HaveUtf8Literals self.now.arena) }
    {
        if has_double(self.schema.fields()) {
            Some(QueryFault::DoubleName)
        } else if self.keys.is_empty() {
            Some(QueryFault::NoKey)
        } else if !self.has_nodes() {
            Some(QueryFault::BadNode)
        } else {
            None
        }
    }

    /// Looks for the first fault of the query, and keeps what it learns of a query without.
    pub fn check(&self, alloc: Global) -> Result<CheckedQuery<'_>, CheckError>
        ensures query { IfOk result (λ q. q ≡ self.now) }
        ensures faultless { OnOk result (first_fault self.now ≡ None) }
        ensures fault { (f : QueryFault) → IsErrOf result (error.Fault f)
            → first_fault self.now ≡ Some f }
    {
        if let Some(fault) = self.shape_fault() {
            return Err(CheckError::Fault(fault));
        }
        let known = Known::new(alloc, &self.arena, &self.schema)?;
        if let Some(fault) = expr_fault(self, &known) {
            return Err(CheckError::Fault(fault));
        }
        let output_schema = output_of(alloc, self, &known)?;
        if has_double(output_schema.fields()) {
            return Err(CheckError::Fault(QueryFault::DoubleOutput));
        }
        if is_negative_slice(self.slice) {
            return Err(CheckError::Fault(QueryFault::NegativeSlice));
        }
        let key_types = key_types_of(alloc, self, &known)?;
        let input_types = input_types_of(alloc, self, &known)?;
        let inputs = inputs_of(alloc, self, &known)?;
        let prototypes = prototypes_of(alloc, self, &known)?;
        Ok(CheckedQuery::new(
            self,
            output_schema,
            key_types,
            input_types,
            inputs,
            prototypes,
        ))
    }
}
