//! The table of runs, for each kind of sink, at once and in rounds.

use crate::cases::COUNT;
use crate::compared::{Feeds, Kind, agrees};
use pipe_columns::DataType;
use pipe_plan::SinkKind;
use std::alloc::Global;
use std::process::Abort;
use std::sync::Wait;
use std::test::Fail;
use std::thread::Threads;

/// The first of the rows from one on, at some distance, that doesn't answer as the plain program does,
/// or how many rows there are.
fn first_apart<H: Threads + Wait + Sync>(
    rt: &H,
    alloc: Global,
    kind: Kind,
    from: usize,
    step: usize,
) -> Result<usize, Fail> {
    for number in from..COUNT {
        if number % step.max(1) == from && !agrees(rt, alloc, kind, number)? {
            return Ok(number);
        }
    }
    Ok(COUNT)
}

/// Fails a test where a row answers otherwise.
fn assert_agree(rt: &impl Abort, apart: Result<usize, Fail>) -> Result<(), Fail> {
    let apart = apart?;
    assert!(rt; apart == COUNT, "{apart}");
    Ok(())
}

#[test]
fn generic_runs_at_once(rt: HostRuntime) -> Result<(), Fail> {
    let kind = Kind {
        sink: SinkKind::Generic,
        dtype: DataType::Int64,
        feeds: Feeds::AtOnce,
    };
    assert_agree(&rt, first_apart(&rt, rt.alloc(), kind, 0, 3))
}

#[test]
fn generic_runs_in_rounds(rt: HostRuntime) -> Result<(), Fail> {
    let kind = Kind {
        sink: SinkKind::Generic,
        dtype: DataType::String,
        feeds: Feeds::Rounds(2),
    };
    assert_agree(&rt, first_apart(&rt, rt.alloc(), kind, 1, 3))
}

#[test]
fn number_runs(rt: HostRuntime) -> Result<(), Fail> {
    let kind = Kind {
        sink: SinkKind::Primitive,
        dtype: DataType::UInt8,
        feeds: Feeds::Rounds(1),
    };
    assert_agree(&rt, first_apart(&rt, rt.alloc(), kind, 2, 7))
}

#[test]
fn text_runs(rt: HostRuntime) -> Result<(), Fail> {
    let kind = Kind {
        sink: SinkKind::Text,
        dtype: DataType::String,
        feeds: Feeds::AtOnce,
    };
    assert_agree(&rt, first_apart(&rt, rt.alloc(), kind, 3, 7))
}
