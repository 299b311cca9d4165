//! Calls of inputs and outputs that fail.

use crate::asked::{Asked, asks, ends, run_asked};
use std::alloc::{AllocError, Global};
use std::test::Fail;
use std::thread::Threads;

/// How many calls of the input a command takes: those that fail, if one of these does.
fn failing_calls<H: Threads + Sync>(
    rt: &H,
    alloc: Global,
    command: Asked<'_>,
) -> Result<u64, Fail> {
    for call in 0..20 {
        let mut failing = command;
        failing.input = Some(call);
        let end = run_asked(rt, alloc, failing)?;
        if end.status == 0 {
            return Ok(call);
        }
        if end.status != 5
            || !end.written.is_empty()
            || end.told.as_slice() != b"input failed\n".as_slice()
        {
            return Err("another end".into());
        }
    }
    Err("no end without a fault".into())
}

/// Whether each call of the input fails that reads a file of CSV, and that reads two states: of each
/// file its begin, its bytes and its end at least.
fn are_told<H: Threads + Sync>(rt: &H, alloc: Global) -> Result<bool, Fail> {
    Ok(
        failing_calls(rt, alloc, asks("save", "0", &["a.csv"]))? >= 3
            && failing_calls(rt, alloc, asks("roll", "[\"k\"]", &["b", "a"]))? >= 6,
    )
}

#[test]
fn each_call_of_the_input_fails(rt: HostRuntime) -> Result<(), Fail> {
    assert!(rt; are_told(&rt, rt.alloc())?);
    Ok(())
}

/// A command of which the write of the output fails.
fn unwritten<'a>(mode: &'a str, third: &'a str, files: &'a [&'a str]) -> Asked<'a> {
    Asked {
        output: Some(0),
        ..asks(mode, third, files)
    }
}

/// Whether a write that fails is told, and a line that fails leaves the status.
fn may_fail<H: Threads + Sync>(rt: &H, alloc: Global) -> Result<bool, AllocError> {
    let line = b"output failed\n".as_slice();
    let untold = Asked {
        messages: Some(0),
        ..asks("roll", "[]", &["a"])
    };
    Ok(
        ends(rt, alloc, unwritten("save", "0", &["a.csv"]), 6, b"", line)?
            && ends(
                rt,
                alloc,
                unwritten("roll", "[\"k\"]", &["a"]),
                6,
                b"",
                line,
            )?
            && ends(rt, alloc, untold, 14, b"", b"")?,
    )
}

#[test]
fn the_write_and_the_line_fail(rt: HostRuntime) -> Result<(), Fail> {
    assert!(rt; may_fail(&rt, rt.alloc())?);
    Ok(())
}
