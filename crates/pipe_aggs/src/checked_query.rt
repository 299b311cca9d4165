//! A query without fault.

ghost use Rattle.std.specs.Prelude.{◌≡◌, All, None, map};
ghost use Rattle.pipe_aggs.specs.CheckedQuery.{HasShape, input_types, IsChecked, IsSound};
ghost use Rattle.pipe_aggs.specs.Faults.{first_fault};
ghost use Rattle.pipe_model.specs.Groupable.{IsGroupable};
ghost use Rattle.pipe_aggs.specs.HashAggs.{input_of, IsThere, prototypes};
ghost use Rattle.pipe_model.specs.Output.{key_types, output_schema};
ghost use Rattle.pipe_aggs.specs.QueryTrees.{query_tree};

use crate::hash_agg::AggInput;
use crate::query::Query;
use pipe_columns::{DataType, Schema};
use pipe_running::AggregateFunction;
use std::hash::RandomState;
use std::marker::Model;

/// A query without fault, with its output columns and types made once, and with the keys under which
/// tables of its groups hash where values were chosen against the hash. Contracts see it as the query.
#[derive(Drop)]
pub struct CheckedQuery<'a> {
    query: &'a Query,
    output_schema: Schema,
    key_types: Vec<DataType>,
    input_types: Vec<DataType>,
    inputs: Vec<AggInput>,
    prototypes: Vec<AggregateFunction>,
    hash_keys: Option<RandomState>,
}

impl<'a> Model for CheckedQuery<'a> {
    ghost use Rattle.pipe_aggs.specs.declared.query.Query.{Query};

    ghost Value = { Query };

    ghost view = { λ a. a.query.now };

    ghost use Rattle.pipe_aggs.specs.CheckedQuery.{IsChecked};

    ghost invariant = { λ a. IsChecked a.query.now a.output_schema
        a.key_types.items a.input_types.items a.inputs.items a.prototypes.items };
}

impl<'a> CheckedQuery<'a> {
    /// A query without fault, with what was made of it.
    pub(crate) fn new(
        query: &'a Query,
        output_schema: Schema,
        key_types: Vec<DataType>,
        input_types: Vec<DataType>,
        inputs: Vec<AggInput>,
        prototypes: Vec<AggregateFunction>,
    ) -> CheckedQuery<'a>
        requires { IsChecked query.now output_schema
            key_types.items input_types.items inputs.items prototypes.items }
        ensures { result ≡ query.now }
    {
        CheckedQuery {
            query,
            output_schema,
            key_types,
            input_types,
            inputs,
            prototypes,
            hash_keys: None,
        }
    }

    /// Has tables of its groups hash under these keys where the keys of many groups have one hash. With
    /// none, as before this call, they hash under fixed ones, so that a run can be repeated. No answer
    /// depends on them.
    pub fn hash_under(&mut self, keys: Option<RandomState>)
        ensures { self.new ≡ self.old }
    {
        self.hash_keys = keys;
    }

    /// The keys under which tables hash, none where they are the fixed ones.
    pub fn hash_keys(&self) -> Option<RandomState> {
        self.hash_keys
    }

    /// The query itself.
    pub fn query(&self) -> &'a Query
        ensures query { result.now ≡ self.now }
        ensures faultless { first_fault self.now ≡ None }
        ensures shape { HasShape self.now }
        ensures sound { IsSound self.now }
        ensures groupable { IsGroupable (query_tree self.now) }
    {
        self.query
    }

    /// The keys' fields, then the columns of the aggregates.
    pub fn output_schema(&self) -> &Schema
        ensures schema { result.now ≡ output_schema (query_tree self.now) }
        ensures groupable { IsGroupable (query_tree self.now) }
    {
        &self.output_schema
    }

    /// The types of the keys, in order.
    pub fn key_types(&self) -> &[DataType]
        ensures { result.now ≡ key_types (query_tree self.now) }
    {
        &self.key_types
    }

    /// The types of what the aggregates are fed. A count of rows is fed nulls of UInt32.
    pub fn input_types(&self) -> &[DataType]
        ensures { result.now ≡ input_types (query_tree self.now) }
    {
        &self.input_types
    }

    /// What the aggregates are fed, in order.
    pub fn inputs(&self) -> &[AggInput]
        ensures fed { map (input_of self.now.arena) result.now
            ≡ map (λ a. a.input) (query_tree self.now).aggs }
        ensures there { All (IsThere self.now.arena) result.now }
    {
        &self.inputs
    }

    /// The running aggregates before any row, in order.
    pub fn prototypes(&self) -> &[AggregateFunction]
        ensures functions { result.now ≡ prototypes (query_tree self.now) }
        ensures groupable { IsGroupable (query_tree self.now) }
    {
        &self.prototypes
    }

    /// How many groups are dropped, and how many are kept at most.
    pub fn slice(&self) -> Option<(usize, usize)>
        ensures { result ≡ (query_tree self.now).slice }
    {
        match self.query.slice {
            Some((offset, count)) => Some((offset as usize, count)),
            None => None,
        }
    }
}
