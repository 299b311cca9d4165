//! Whole lives of summaries: two additions, an answer, one frame of all, and that frame opened.

use crate::asked::{is_of_three, one_row, two_rows};
use crate::steps::{add_again, answer_again, compact_again, open_again, store_of};
use pipe_aggs::{CheckedQuery, Query};
use pipe_spill::MemoryStore;
use pipe_summary::Summary;
use std::alloc::Global;
use std::test::Fail;

/// Whether a summary answers over three rows, which are added to it.
fn answers_over_three(
    alloc: Global,
    summary: &mut Summary<'_, MemoryStore>,
    refusals: &mut u32,
) -> Result<bool, Fail> {
    add_again(summary, two_rows(alloc)?, refusals)?;
    add_again(summary, one_row(alloc)?, refusals)?;
    Ok(is_of_three(&answer_again(summary, refusals)?))
}

/// Whether the summary that a store holds answers over three rows.
fn is_summary_of_three(
    alloc: Global,
    query: &CheckedQuery<'_>,
    store: MemoryStore,
    refusals: &mut u32,
) -> Result<bool, Fail> {
    let mut summary = open_again(alloc, query, store, refusals)?;
    Ok(is_of_three(&answer_again(&mut summary, refusals)?))
}

/// Whether a summary that grows over one store, and is put as one frame into another, answers alike
/// before and behind. In each store the call of a number fails.
fn lives(
    alloc: Global,
    query: &CheckedQuery<'_>,
    failing: u64,
    into_failing: u64,
    refusals: &mut u32,
) -> Result<bool, Fail> {
    let mut into = store_of(alloc, into_failing)?;
    let mut summary = open_again(alloc, query, store_of(alloc, failing)?, refusals)?;
    let grown = answers_over_three(alloc, &mut summary, refusals)?;
    compact_again(&mut summary, &mut into, refusals)?;
    let store = summary.into_store();
    let two = store.frames().len() == 2 && into.frames().len() == 1;
    let kept = is_summary_of_three(alloc, query, store, refusals)?;
    let one = is_summary_of_three(alloc, query, into, refusals)?;
    Ok(grown && two && kept && one)
}

/// Whether a summary lives so, with so many refusals by stores.
pub(crate) fn lives_with(
    alloc: Global,
    query: &Query,
    failing: (u64, u64),
    want: u32,
) -> Result<bool, Fail> {
    let mut refusals = 0;
    match query.check(alloc) {
        Ok(checked) => {
            Ok(lives(alloc, &checked, failing.0, failing.1, &mut refusals)? && refusals == want)
        }
        Err(_) => Err("Query::check wants memory".into()),
    }
}
