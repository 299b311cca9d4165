//! What is asked of the query.

use crate::memory_tests::{are_at_once, are_merged, are_regrouped};
use pipe_aggs::{CheckedQuery, Query};
use std::alloc::Global;
use std::test::Fail;

#[derive(Clone, Copy)]
pub(crate) enum Asks {
    /// Two states as one.
    Merged,
    /// Two states by the first key, one added after the other.
    Added,
    /// The same at once.
    AtOnce,
}

/// Whether what is asked of a checked query is so.
fn is_so(alloc: Global, query: &CheckedQuery<'_>, asks: Asks) -> Result<bool, Fail> {
    match asks {
        Asks::Merged => are_merged(alloc, query),
        Asks::Added => are_regrouped(alloc, query),
        Asks::AtOnce => are_at_once(alloc, query),
    }
}

/// Whether what is asked of a query is so.
pub(crate) fn ask(alloc: Global, query: &Query, asks: Asks) -> Result<bool, Fail> {
    match query.check(alloc) {
        Ok(checked) => is_so(alloc, &checked, asks),
        Err(_) => Err("Query::check wants memory".into()),
    }
}
