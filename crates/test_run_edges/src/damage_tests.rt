//! A run that spills a frame of 76 bytes, each of which comes back changed in turn; and one of whose four
//! partitions no frame comes back.

use crate::asked::{Pair, hold, sum_query};
use crate::changed_store::{Change, ChangedStore};
use crate::runs::{End, has_groups, run};
use pipe_aggs::Query;
use pipe_group_by::PipeError;
use std::alloc::Global;
use std::process::Abort;
use std::sync::Wait;
use std::test::Fail;
use std::thread::Threads;

/// How many bytes the frame has.
const LENGTH: usize = 76;

/// Ranges of its bytes: those of the number of rows, and for each of the two rows those of the length
/// of its key, of the mark of its key, and of that of its input. A change there leaves no frame.
const FORM: [(usize, usize); 5] = [(0, 8), (16, 25), (33, 34), (50, 59), (67, 68)];

/// Whether a byte is of the frame's form: a change of another is a change of a value or a place.
fn is_form(at: usize) -> bool {
    FORM.iter().any(|range| range.0 <= at && at < range.1)
}

/// So many stores whose frames come back changed.
fn stores_of(alloc: Global, count: usize, change: Change) -> Result<Vec<ChangedStore>, Fail> {
    let mut stores = Vec::new(alloc);
    for _store in 0..count {
        stores.push(ChangedStore::new(alloc, change))?;
    }
    Ok(stores)
}

/// The rows 1 5, 2 6 and 2 7 in one chunk, behind which the waiting rows are dumped.
fn one_spill<H: Threads + Wait + Sync>(
    rt: &H,
    alloc: Global,
    query: &Query,
    change: Change,
) -> Result<End<ChangedStore>, Fail> {
    let stores = stores_of(alloc, 1, change)?;
    run(rt, alloc, query, 1, 1, &[&[(1, 5), (2, 6), (2, 7)]], stores)
}

/// Whether a run was answered, or the first frame of the first store told as damaged.
fn is_as_wanted(end: &End<ChangedStore>, damaged: bool) -> bool {
    match &end.0 {
        Ok(_) => !damaged,
        Err(PipeError::Damaged { partition, number }) => damaged && *partition == 0 && *number == 0,
        Err(_) => false,
    }
}

/// Whether a change is told as damage, or is not.
fn is_told<H: Threads + Wait + Sync>(
    rt: &H,
    alloc: Global,
    query: &Query,
    change: Change,
    damaged: bool,
) -> Result<bool, Fail> {
    let end = one_spill(rt, alloc, query, change)?;
    Ok(is_as_wanted(&end, damaged))
}

/// The first byte whose change isn't told as it should be, or how many bytes there are.
fn first_apart<H: Threads + Wait + Sync>(
    rt: &H,
    alloc: Global,
    query: &Query,
) -> Result<usize, Fail> {
    for at in 0..LENGTH {
        if !is_told(rt, alloc, query, Change::Bit(at), is_form(at))? {
            return Ok(at);
        }
    }
    Ok(LENGTH)
}

/// Fails a test where the change of a byte isn't told as it should be.
fn assert_told(rt: &impl Abort, first: Result<usize, Fail>) -> Result<(), Fail> {
    let at = first?;
    assert!(rt; at == LENGTH, "{at}");
    Ok(())
}

#[test]
fn each_byte_changed(rt: HostRuntime) -> Result<(), Fail> {
    let query = sum_query(rt.alloc())?;
    let first = first_apart(&rt, rt.alloc(), &query);
    drop(query);
    assert_told(&rt, first)
}

/// Whether another length is told as damage, and no byte.
fn are_told<H: Threads + Wait + Sync>(rt: &H, alloc: Global, query: &Query) -> Result<bool, Fail> {
    for change in [Change::LastByteCut, Change::OneByteMore, Change::NoByte] {
        if !is_told(rt, alloc, query, change, true)? {
            return Ok(false);
        }
    }
    Ok(true)
}

#[test]
fn another_length(rt: HostRuntime) -> Result<(), Fail> {
    let query = sum_query(rt.alloc())?;
    let are = are_told(&rt, rt.alloc(), &query);
    drop(query);
    hold(are)
}

/// Whether a changed byte leads to these groups.
fn leads_to<H: Threads + Wait + Sync>(
    rt: &H,
    alloc: Global,
    query: &Query,
    at: usize,
    groups: &[Pair],
) -> Result<bool, Fail> {
    let end = one_spill(rt, alloc, query, Change::Bit(at))?;
    Ok(match &end.0 {
        Ok(output) => has_groups(&output.frame, groups),
        Err(_) => false,
    })
}

/// Whether a changed input is in the sum, and a changed key a group.
fn lead_to_others<H: Threads + Wait + Sync>(
    rt: &H,
    alloc: Global,
    query: &Query,
) -> Result<bool, Fail> {
    Ok(
        leads_to(rt, alloc, query, 41, &[(1, 5), (2, 14)])?
            && leads_to(rt, alloc, query, 32, &[(1, 5), (2, 7), (3, 6)])?,
    )
}

#[test]
fn a_changed_byte_changes_the_answer(rt: HostRuntime) -> Result<(), Fail> {
    let query = sum_query(rt.alloc())?;
    let lead = lead_to_others(&rt, rt.alloc(), &query);
    drop(query);
    hold(lead)
}

/// Rows of two workers that come into each of four partitions; the first two are dumped.
const CHUNKS: [&[Pair]; 4] = [
    &[(1, 1), (2, 2), (3, 3), (4, 4)],
    &[(5, 5), (6, 6), (7, 7), (8, 8)],
    &[(1, 10), (2, 20), (5, 50), (6, 60)],
    &[(3, 30), (4, 40), (7, 70), (8, 80)],
];

/// Whether of several damaged frames, which threads find side by side, one of the first partition is told.
fn tells_first<H: Threads + Wait + Sync>(
    rt: &H,
    alloc: Global,
    query: &Query,
) -> Result<bool, Fail> {
    let stores = stores_of(alloc, 4, Change::NoByte)?;
    let end = run(rt, alloc, query, 2, 2, &CHUNKS, stores)?;
    Ok(matches!(end.0, Err(PipeError::Damaged { partition: 0, .. })) && end.1.len() == 4)
}

#[test]
fn of_damaged_frames_one_of_the_first_partition_is_told(rt: HostRuntime) -> Result<(), Fail> {
    let query = sum_query(rt.alloc())?;
    let tells = tells_first(&rt, rt.alloc(), &query);
    drop(query);
    hold(tells)
}
