//! The types in which a state is saved.

ghost use Rattle.std.specs.Prelude.{◌≡◌, ◌++◌, IfOk, OnOk};
ghost use Rattle.pipe_aggs.specs.HashAggs.{prototypes};
ghost use Rattle.pipe_aggs.specs.QueryTrees.{query_tree};
ghost use Rattle.pipe_model.specs.Groupable.{IsGroupable};
ghost use Rattle.pipe_states.specs.Forms.{all_saved_types, is_mean, saved_types_of, saved_width, width};

use pipe_aggs::{AggregateFn, AggregateFunction, CheckedQuery};
use pipe_columns::DataType;
use std::alloc::{AllocError, Global};

/// Whether a running aggregate is a mean, which gives a sum and a count.
pub fn is_mean(function: &AggregateFunction) -> bool
    ensures { result ≡ is_mean function.now }
{
    matches!(function, AggregateFunction::Mean(_))
}

/// How many results a running aggregate gives.
pub fn width(function: &AggregateFunction) -> usize
    ensures { result ≡ width function.now }
{
    if is_mean(function) { 2 } else { 1 }
}

/// How many values the results of a running aggregate are saved as.
pub(crate) fn saved_width(function: &AggregateFunction) -> usize
    ensures { result ≡ saved_width function.now }
{
    if is_mean(function) { 3 } else { 1 }
}

/// Adds the types in which the results of a running aggregate are saved.
fn push_types(types: &mut Vec<DataType>, function: &AggregateFunction) -> Result<(), AllocError>
    ensures { OnOk result (types.new.items ≡ types.old.items ++ saved_types_of function.now) }
{
    if is_mean(function) {
        types.extend_from_slice(&[DataType::Int64, DataType::UInt64, DataType::UInt32])
    } else {
        types.push(function.dtype())?;
        Ok(())
    }
}

/// Adds the types in which the results of running aggregates are saved.
fn push_all_types(
    types: &mut Vec<DataType>,
    functions: &[AggregateFunction],
) -> Result<(), AllocError>
    ensures { OnOk result (types.new.items ≡ types.old.items ++ all_saved_types functions.now) }
{
    for function in functions {
        push_types(types, function)?;
    }
    Ok(())
}

/// The types in which the results of a query are saved.
pub(crate) fn saved_types(
    alloc: Global,
    query: &CheckedQuery<'_>,
) -> Result<Vec<DataType>, AllocError>
    ensures types { IfOk result
        (λ types. types.items ≡ all_saved_types (prototypes (query_tree query.now))) }
    ensures groupable { OnOk result (IsGroupable (query_tree query.now)) }
{
    let mut types = Vec::new(alloc);
    push_all_types(&mut types, query.prototypes())?;
    Ok(types)
}
