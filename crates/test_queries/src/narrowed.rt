//! The columns that a query of three names.

use crate::made::{Asked, Given, have_names, query_of};
use narrow_query::{Narrowed, narrow};
use pipe_aggs::Query;
use pipe_columns::DataType;
use std::alloc::Global;
use std::test::Fail;

/// Columns a, b and c: the sum of c, by a under the name b.
const SUM_BY_ALIAS: Asked = Asked {
    fields: &[
        ("a", DataType::Int64),
        ("b", DataType::Int64),
        ("c", DataType::Int64),
    ],
    exprs: &[
        Given::Column("a"),
        Given::Alias(0, "b"),
        Given::Column("c"),
        Given::Sum(2),
    ],
    keys: &[1],
    aggs: &[3],
    slice: None,
};

/// A query without fault over the columns that it names.
fn narrowed_of(alloc: Global, query: Query) -> Result<Narrowed, Fail> {
    if query.check(alloc).is_err() {
        return Err("a fault".into());
    }
    Ok(narrow(alloc, query)?)
}

/// Whether the first and the third of three columns are wanted.
fn wants_outer_columns(narrowed: &Narrowed) -> bool {
    narrowed.wanted.as_slice() == [true, false, true].as_slice()
        && have_names(narrowed.query.schema.fields(), &["a", "c"])
}

/// Whether the sum by an alias is narrowed to these.
fn is_narrowed(alloc: Global) -> Result<bool, Fail> {
    let narrowed = narrowed_of(alloc, query_of(alloc, &SUM_BY_ALIAS)?)?;
    Ok(wants_outer_columns(&narrowed))
}

#[test]
fn input_of_an_alias_is_wanted(rt: HostRuntime) -> Result<(), Fail> {
    assert!(rt; is_narrowed(rt.alloc())?);
    Ok(())
}
