//! Stores of which each call fails in turn.

use crate::asked::{Pair, hold, sum_query};
use crate::runs::{End, run};
use pipe_aggs::Query;
use pipe_columns::{AnyValue, DataType};
use pipe_group_by::PipeError;
use pipe_spill::{MemoryStore, SpillRow, encode_key, read_frame};
use std::alloc::{AllocError, Global};
use std::process::Abort;
use std::sync::Wait;
use std::test::Fail;
use std::thread::Threads;

/// The rows of each of the four chunks.
const ROWS: [Pair; 4] = [(1, 10), (2, 20), (3, 30), (4, 40)];

/// How many workers there are, which store fails at which of its calls, and how many frames each store
/// is left with, where that doesn't depend on who comes first.
type Case = (usize, usize, u64, Option<(usize, usize)>);

/// With one worker each store has two puts, in turn, and then two gets.
const CASES: [Case; 12] = [
    (1, 0, 0, Some((0, 0))),
    (1, 0, 1, Some((1, 1))),
    (1, 0, 2, Some((2, 2))),
    (1, 0, 3, Some((2, 2))),
    (1, 1, 0, Some((1, 0))),
    (1, 1, 1, Some((2, 1))),
    (1, 1, 2, Some((2, 2))),
    (1, 1, 3, Some((2, 2))),
    (2, 0, 0, None),
    (2, 0, 1, None),
    (2, 1, 0, None),
    (2, 1, 1, None),
];

/// Whether a spilled row is one of the run's in a partition: the row of number r has the key r + 1 and
/// ten times that as its input, and keys lie in the two partitions by turns.
fn is_of_run(alloc: Global, row: &SpillRow, partition: usize) -> Result<bool, AllocError> {
    let number = row.place.row as usize;
    let key = number as i128 + 1;
    let code = encode_key(alloc, &[AnyValue::Int(key)], &[DataType::Int64])?;
    Ok(
        row.place.chunk < 4
            && 1 <= number
            && number < 4
            && number % 2 == partition
            && row.key.as_slice() == code.as_slice()
            && row.values.as_slice() == [AnyValue::Int(key.wrapping_mul(10))].as_slice(),
    )
}

/// Whether bytes are a frame of rows of the run in a partition.
fn is_frame_of_run(alloc: Global, bytes: &[u8], partition: usize) -> Result<bool, AllocError> {
    let Ok(rows) = read_frame(alloc, bytes, &[DataType::Int64], &[DataType::Int64]) else {
        return Ok(false);
    };
    for row in &rows {
        if !is_of_run(alloc, row, partition)? {
            return Ok(false);
        }
    }
    Ok(!rows.is_empty())
}

/// Whether a store has frames of the run's rows in its partition alone, and so many where that is known.
fn has_frames_of_run(
    alloc: Global,
    store: &MemoryStore,
    partition: usize,
    count: Option<usize>,
) -> Result<bool, AllocError> {
    let frames = store.frames();
    for frame in frames {
        if !is_frame_of_run(alloc, frame, partition)? {
            return Ok(false);
        }
    }
    Ok(match count {
        Some(count) => frames.len() == count,
        None => true,
    })
}

/// Whether stores have frames of the run's rows in their partitions alone, and so many where that is known.
fn have_frames_of_run(
    alloc: Global,
    stores: &[MemoryStore],
    counts: Option<(usize, usize)>,
) -> Result<bool, AllocError> {
    let [first, second] = stores else {
        return Ok(false);
    };
    let (of_first, of_second) = match counts {
        Some((of_first, of_second)) => (Some(of_first), Some(of_second)),
        None => (None, None),
    };
    Ok(
        has_frames_of_run(alloc, first, 0, of_first)?
            && has_frames_of_run(alloc, second, 1, of_second)?,
    )
}

/// Two stores, of which one fails at a call.
fn stores_of(alloc: Global, failing: usize, call: u64) -> Result<Vec<MemoryStore>, Fail> {
    let mut stores = Vec::new(alloc);
    for store in 0..2 {
        let mut calls = Vec::new(alloc);
        if store == failing {
            calls.push(call)?;
        }
        stores.push(MemoryStore::new(alloc, calls))?;
    }
    Ok(stores)
}

/// Four chunks, behind each of which what waits in a partition is dumped.
fn dumping_run<H: Threads + Wait + Sync>(
    rt: &H,
    alloc: Global,
    query: &Query,
    workers: usize,
    failing: usize,
    call: u64,
) -> Result<End<MemoryStore>, Fail> {
    let stores = stores_of(alloc, failing, call)?;
    run(rt, alloc, query, workers, 4, &[ROWS.as_slice(); 4], stores)
}

/// Whether a run ends with the fault of its store, and told frames are as wanted.
fn ends_as_wanted<H: Threads + Wait + Sync>(
    rt: &H,
    alloc: Global,
    query: &Query,
    case: &Case,
) -> Result<bool, Fail> {
    let (workers, failing, call, counts) = *case;
    let end = dumping_run(rt, alloc, query, workers, failing, call)?;
    let tells = match &end.0 {
        Err(PipeError::Store { partition }) => *partition == failing,
        _ => false,
    };
    Ok(tells && have_frames_of_run(alloc, &end.1, counts)?)
}

/// The first case that doesn't end as is wanted, or how many there are.
fn first_apart<H: Threads + Wait + Sync>(
    rt: &H,
    alloc: Global,
    query: &Query,
) -> Result<usize, Fail> {
    for number in 0..CASES.len() {
        if !ends_as_wanted(rt, alloc, query, &CASES[number])? {
            return Ok(number);
        }
    }
    Ok(CASES.len())
}

/// Fails a test where a case doesn't end as is wanted.
fn assert_ended(rt: &impl Abort, first: Result<usize, Fail>) -> Result<(), Fail> {
    let number = first?;
    assert!(rt; number == CASES.len(), "{number}");
    Ok(())
}

#[test]
fn each_call_of_each_store_fails(rt: HostRuntime) -> Result<(), Fail> {
    let query = sum_query(rt.alloc())?;
    let first = first_apart(&rt, rt.alloc(), &query);
    drop(query);
    assert_ended(&rt, first)
}

/// Whether a run of which no call fails is answered.
fn is_answered<H: Threads + Wait + Sync>(
    rt: &H,
    alloc: Global,
    query: &Query,
    workers: usize,
) -> Result<bool, Fail> {
    let end = dumping_run(rt, alloc, query, workers, 2, 0)?;
    Ok(end.0.is_ok())
}

/// Whether it is with one worker and with two.
fn are_answered<H: Threads + Wait + Sync>(
    rt: &H,
    alloc: Global,
    query: &Query,
) -> Result<bool, Fail> {
    Ok(is_answered(rt, alloc, query, 1)? && is_answered(rt, alloc, query, 2)?)
}

/// Without a fault the run is answered.
#[test]
fn no_call_fails(rt: HostRuntime) -> Result<(), Fail> {
    let query = sum_query(rt.alloc())?;
    let are = are_answered(&rt, rt.alloc(), &query);
    drop(query);
    hold(are)
}
