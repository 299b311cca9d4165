//! Chunks that are added one by one, and none.

ghost use Rattle.std.specs.Prelude.{◌≡◌, IfOk};

use crate::asked::{is_of_three, one_row, sum_and_count, two_rows};
use crate::steps::{open, store_of};
use pipe_aggs::{CheckedQuery, Query};
use pipe_columns::{DataChunk, Schema};
use pipe_spill::MemoryStore;
use pipe_summary::{Adding, Summary};
use std::alloc::Global;
use std::test::Fail;

/// An empty summary.
fn empty<'a>(alloc: Global, query: &'a CheckedQuery<'a>) -> Result<Summary<'a, MemoryStore>, Fail>
    ensures { IfOk result (λ s. s.query ≡ query.now) }
{
    match open(alloc, query, store_of(alloc, 99)?) {
        Ok(summary) => Ok(summary),
        Err(_) => Err("Summary::open wants memory".into()),
    }
}

/// An addition with a chunk more.
fn fed<'a>(adding: Adding<'a>, chunk: DataChunk, schema: &Schema) -> Result<Adding<'a>, Fail>
    requires { adding.query.schema ≡ schema.now }
    ensures query { IfOk result (λ a. a.query ≡ adding.entry.query) }
    ensures rows { IfOk result (λ a. a.rows ≡ adding.entry.rows) }
    ensures first { IfOk result (λ a. a.first ≡ adding.entry.first) }
{
    let fits = chunk.frame.fits(schema);
    let chunks = [chunk];
    if !fits || !adding.has_room_for(&chunks) {
        return Err("no room".into());
    }
    match adding.feed_all(&chunks) {
        Ok(adding) => Ok(adding),
        Err(_) => Err("Adding::feed_all wants memory".into()),
    }
}

/// Adds two chunks at once, fed one by one.
fn feed_two<'a>(
    alloc: Global,
    summary: &mut Summary<'a, MemoryStore>,
    schema: &Schema,
) -> Result<(), Fail>
    requires { summary.old.query.schema ≡ schema.now }
{
    let adding = summary.begin()?;
    let adding = fed(adding, two_rows(alloc)?, schema)?;
    let adding = fed(adding, one_row(alloc)?, schema)?;
    Ok(summary.finish(adding)?)
}

/// Whether chunks that are fed one by one are one frame, and none is none.
fn grows_by_feeding(alloc: Global, query: &CheckedQuery<'_>) -> Result<bool, Fail> {
    let schema = &query.query().schema;
    let mut summary = empty(alloc, query)?;
    feed_two(alloc, &mut summary, schema)?;
    summary.add(&[])?;
    let right = is_of_three(&summary.answer()?);
    Ok(right && summary.into_store().frames().len() == 1)
}

/// Whether that is so under a query.
fn grows_under(alloc: Global, query: &Query) -> Result<bool, Fail> {
    match query.check(alloc) {
        Ok(checked) => grows_by_feeding(alloc, &checked),
        Err(_) => Err("Query::check wants memory".into()),
    }
}

#[test]
fn chunks_are_fed_one_by_one(rt: HostRuntime) -> Result<(), Fail> {
    let query = sum_and_count(rt.alloc())?;
    assert!(rt; grows_under(rt.alloc(), &query)?);
    Ok(())
}
