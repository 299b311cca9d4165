//! Calls of the input, the output and the messages that fail.

use crate::asked::{Asked, End, Ended, asks, ends, hold, run_asked};
use crate::outputs::PIECE;
use crate::questions::{COLUMNS, FILES, MEANS, QUERY, SUMS};
use crate::stores::MemoryStores;
use lavzimo_stores::SpillMaker;
use std::alloc::{AllocError, Global};
use std::sync::Wait;
use std::test::Fail;
use std::thread::Threads;

/// How a failing call of the input is told: of the file of a query by its name.
fn is_told(told: &[u8]) -> bool {
    told == b"the input can't be read\n".as_slice() || told == b"q.json can't be read\n".as_slice()
}

/// How a run ended of which a call of the input fails.
#[derive(Clone, Copy, PartialEq, Eq)]
enum Ending {
    /// It made no such call.
    Answered,
    /// With status 5, its line, and nothing written.
    Told,
    /// Otherwise.
    Another,
}

/// How a run ended that is to answer this text.
fn ending_of(ended: &Ended, text: &str) -> Ending {
    if ended.answers(text) {
        Ending::Answered
    } else if ended.end.status == 5 && ended.written().is_empty() && is_told(ended.told()) {
        Ending::Told
    } else {
        Ending::Another
    }
}

/// How a run ends of which a call of the input fails.
fn ending_at<M: SpillMaker, H: Alloc<A = Global> + Threads + Wait + Sync>(
    rt: &H,
    maker: &mut M,
    asked: Asked<'_>,
    text: &str,
    call: u64,
) -> Result<Ending, AllocError> {
    let failing = Asked {
        input: Some(call),
        ..asked
    };
    let ended = run_asked(rt, maker, &failing)?;
    Ok(ending_of(&ended, text))
}

/// How many calls of the input a run makes: those that end it with status 5 where they fail. No more
/// are tried than a bound says, and then there is no such number.
fn input_calls<M: SpillMaker, H: Alloc<A = Global> + Threads + Wait + Sync>(
    rt: &H,
    maker: &mut M,
    asked: Asked<'_>,
    text: &str,
) -> Result<Option<u64>, AllocError> {
    for call in 0..20 {
        match ending_at(rt, maker, asked, text, call)? {
            Ending::Answered => return Ok(Some(call)),
            Ending::Told => {}
            Ending::Another => return Ok(None),
        }
    }
    Ok(None)
}

/// Whether so many calls are made at least.
fn are_at_least(calls: Option<u64>, least: u64) -> bool {
    match calls {
        Some(calls) => least <= calls,
        None => false,
    }
}

/// Whether each call of the input that fails ends a run so. Each file takes three calls at least: its
/// begin, its bytes and its end.
fn are_unread<M: SpillMaker, H: Alloc<A = Global> + Threads + Wait + Sync>(
    rt: &H,
    maker: &mut M,
) -> Result<bool, AllocError> {
    let calls = input_calls(rt, maker, asks(COLUMNS, &FILES), MEANS)?;
    let query_calls = input_calls(rt, maker, asks(QUERY, &FILES), SUMS)?;
    Ok(are_at_least(calls, 6) && are_at_least(query_calls, 9))
}

/// What is written before the write of a number.
fn front_of(call: u8) -> &'static [u8] {
    let means = MEANS.as_bytes();
    &means[..(PIECE * usize::from(call)).min(means.len())]
}

/// The status of a run that writes this of what it has to write.
fn status_of(written: &[u8]) -> u8 {
    if written.len() == MEANS.len() { 0 } else { 6 }
}

/// The line of a status, unless the reader of the output is gone.
fn line_of(status: u8, closed: bool) -> &'static str {
    if status == 0 || closed {
        ""
    } else {
        "output failed\n"
    }
}

/// Whether a run of which a write fails has written all that was taken before, and tells of it, unless
/// its reader is gone.
fn is_cut<M: SpillMaker, H: Alloc<A = Global> + Threads + Wait + Sync>(
    rt: &H,
    maker: &mut M,
    call: u8,
    closed: bool,
) -> Result<bool, AllocError> {
    let failing = Asked {
        output: Some(u64::from(call)),
        closed,
        ..asks(COLUMNS, &FILES)
    };
    let written = front_of(call);
    let status = status_of(written);
    let end = End {
        status,
        journals: 3,
        stores: 3,
    };
    ends(rt, maker, &failing, end, written, line_of(status, closed))
}

/// Whether runs of which each write fails in turn end so.
fn are_cut<M: SpillMaker, H: Alloc<A = Global> + Threads + Wait + Sync>(
    rt: &H,
    maker: &mut M,
) -> Result<bool, AllocError> {
    for call in 0..6 {
        if !is_cut(rt, maker, call, false)? || !is_cut(rt, maker, call, true)? {
            return Ok(false);
        }
    }
    Ok(true)
}

/// Whether a run over a file that lacks a column ends so, with this line, where a call of the messages
/// fails.
fn lacks<M: SpillMaker, H: Alloc<A = Global> + Threads + Wait + Sync>(
    rt: &H,
    maker: &mut M,
    messages: Option<u64>,
    line: &str,
) -> Result<bool, AllocError> {
    let failing = Asked {
        messages,
        ..asks("--by w b.csv a.csv", &FILES)
    };
    let end = End {
        status: 4,
        journals: 0,
        stores: 16,
    };
    ends(rt, maker, &failing, end, &[], line)
}

/// Whether a line is told, and one that isn't told leaves the status as it is.
fn may_fail<M: SpillMaker, H: Alloc<A = Global> + Threads + Wait + Sync>(
    rt: &H,
    maker: &mut M,
) -> Result<bool, AllocError> {
    let line = "a.csv has no column w, or more than one\n";
    Ok(lacks(rt, maker, None, line)? && lacks(rt, maker, Some(0), "")?)
}

/// Whether all of that is so.
fn are_failing<M: SpillMaker, H: Alloc<A = Global> + Threads + Wait + Sync>(
    rt: &H,
    maker: &mut M,
) -> Result<bool, AllocError> {
    Ok(are_unread(rt, maker)? && are_cut(rt, maker)? && may_fail(rt, maker)?)
}

#[test]
fn each_call_fails(rt: HostRuntime) -> Result<(), Fail> {
    hold(are_failing(&rt, &mut MemoryStores::new(rt.alloc()))?)
}
