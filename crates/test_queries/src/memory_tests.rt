//! Calls that want memory. `rt try --test --fail-alloc N` refuses the allocation of number N: a
//! test then fails by an error that says what `wants memory`, or by that of an allocation that
//! prepared the call. `scripts/refuse_allocations.py test_queries` tries each number, and says what
//! each test ended with.

use crate::made::{THREE_AGGREGATES, have_names, query_of};
use pipe_aggs::{AggregateFunction, CheckError, CheckedQuery, HashAgg, Query, convert_to_hash_agg};
use pipe_columns::DataType;
use std::alloc::{AllocError, Global};
use std::test::Fail;

/// The first aggregate of a query without fault.
fn converted(
    alloc: Global,
    checked: &CheckedQuery<'_>,
) -> Result<Result<HashAgg, AllocError>, Fail> {
    let query = checked.query();
    match query.aggs.first() {
        Some(node) => Ok(convert_to_hash_agg(alloc, *node, &query.arena, &query.schema)),
        None => Err("no aggregate".into()),
    }
}

/// Whether an aggregate is the sum of numbers of one byte.
fn is_sum_of_int8(agg: &HashAgg) -> bool {
    agg.input_dtype == DataType::Int8 && matches!(agg.function, AggregateFunction::SumI64(_))
}

/// Whether the first aggregate of a query without fault is such a sum.
fn begins_with_sum(alloc: Global, checked: &CheckedQuery<'_>) -> Result<bool, Fail> {
    match converted(alloc, checked)? {
        Ok(agg) => Ok(is_sum_of_int8(&agg)),
        Err(AllocError) => Err("the aggregate wants memory".into()),
    }
}

/// The names of the columns of the three aggregates.
const OUTPUTS: &[&str] = &["v", "s", "m_sum", "m_count", "len"];

/// Whether the three aggregates are checked as they were asked, with all that is made of them.
fn is_as_asked(checked: &CheckedQuery<'_>) -> bool {
    let inputs = [DataType::Int8, DataType::Int8, DataType::UInt32];
    checked.slice() == Some((1, 2))
        && checked.query().aggs.len() == 3
        && checked.key_types() == [DataType::Int8].as_slice()
        && checked.input_types() == inputs.as_slice()
        && checked.inputs().len() == 3
        && checked.prototypes().len() == 3
        && have_names(checked.output_schema().fields(), OUTPUTS)
}

/// Whether that is so, and the first of them is converted.
fn is_whole(alloc: Global, checked: &CheckedQuery<'_>) -> Result<bool, Fail> {
    Ok(is_as_asked(checked) && begins_with_sum(alloc, checked)?)
}

/// Whether the check of the three aggregates gives all of that.
fn is_checked(alloc: Global, query: &Query) -> Result<bool, Fail> {
    match query.check(alloc) {
        Ok(checked) => is_whole(alloc, &checked),
        Err(CheckError::Memory) => Err("the check wants memory".into()),
        Err(CheckError::Fault(_)) => Err("a fault".into()),
    }
}

#[test]
fn memory_for_a_check_and_an_aggregate(rt: HostRuntime) -> Result<(), Fail> {
    let query = query_of(rt.alloc(), &THREE_AGGREGATES)?;
    assert!(rt; is_checked(rt.alloc(), &query)?);
    Ok(())
}
