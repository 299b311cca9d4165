//! Calls of the input, the output and the messages, of which each fails in turn.

use crate::hold::hold;
use crate::runs::{NOTHING, Run, SUM_AND_COUNT, all_hold, holds_in_memory};
use crate::small::PIECE;
use pipe_global::OpenGate;
use std::alloc::{AllocError, Global};
use std::sync::Wait;
use std::test::Fail;
use std::thread::Threads;

/// The first three rows of two files.
const THREE_ROWS: Run<'static> = Run {
    words: &["--rows", "3", SUM_AND_COUNT, "a.csv", "b.csv"],
    files: &[("a.csv", "k,v\n1,5\n2,6\n"), ("b.csv", "k,v\n1,7\n9,9\n")],
    output: b"k,s,c\n1,12,2\n2,6,1\n",
    ..NOTHING
};

/// The same as lines of JSON.
const IN_JSON: Run<'static> = Run {
    words: &[
        "--rows",
        "3",
        "--format",
        "json",
        SUM_AND_COUNT,
        "a.csv",
        "b.csv",
    ],
    output: b"{\"k\":1,\"s\":12,\"c\":2}\n{\"k\":2,\"s\":6,\"c\":1}\n",
    ..THREE_ROWS
};

/// What comes of a failed input.
const UNREAD: Run<'static> = Run {
    status: 5,
    output: b"",
    line: b"input failed\n",
    ..THREE_ROWS
};

/// A file is begun, its bytes are read, and its end; then the second file. Faults that aren't told keep their
/// status, and generated rows are written as others are.
const RUNS: [Run<'static>; 8] = [
    Run {
        input_fails: &[0],
        ..UNREAD
    },
    Run {
        input_fails: &[1],
        ..UNREAD
    },
    Run {
        input_fails: &[2],
        ..UNREAD
    },
    Run {
        input_fails: &[3],
        ..UNREAD
    },
    Run {
        input_fails: &[4],
        ..UNREAD
    },
    Run {
        input_fails: &[5],
        ..UNREAD
    },
    Run {
        input_fails: &[1],
        message_fails: &[0],
        line: b"",
        ..UNREAD
    },
    Run {
        words: &["--generate", "7"],
        output_fails: &[0],
        status: 6,
        output: b"",
        line: b"output failed\n",
        ..NOTHING
    },
];

#[test]
fn each_call_of_the_input_fails(rt: HostRuntime) -> Result<(), Fail> {
    hold(all_hold(&rt, &RUNS))
}

/// What stands written of a text where a call fails.
fn written_of(text: &[u8], call: u8) -> &[u8] {
    &text[..(PIECE * usize::from(call)).min(text.len())]
}

/// Whether a run of which a call of the output fails comes to what is due.
fn fails_at<H: Alloc<A = Global> + Threads + Wait + Sync>(
    rt: &H,
    run: &Run<'_>,
    call: u8,
) -> Result<bool, AllocError> {
    let output = written_of(run.output, call);
    let failing = Run {
        output_fails: &[u64::from(call)],
        status: 6,
        output,
        line: b"output failed\n",
        ..*run
    };
    if output.len() == run.output.len() {
        return holds_in_memory(rt, run, &OpenGate);
    }
    holds_in_memory(rt, &failing, &OpenGate)
}

/// Whether a run of which a call of the messages fails keeps its status.
fn is_told_up_to<H: Alloc<A = Global> + Threads + Wait + Sync>(
    rt: &H,
    call: u8,
) -> Result<bool, AllocError> {
    let refused = Run {
        words: &["{"],
        message_fails: &[u64::from(call)],
        status: 3,
        line: written_of(b"query refused: json\n", call),
        ..NOTHING
    };
    holds_in_memory(rt, &refused, &OpenGate)
}

/// Whether that is so of each call.
fn do_all_fail<H: Alloc<A = Global> + Threads + Wait + Sync>(rt: &H) -> Result<bool, AllocError> {
    for call in 0..12 {
        if !fails_at(rt, &THREE_ROWS, call)?
            || !fails_at(rt, &IN_JSON, call)?
            || !is_told_up_to(rt, call)?
        {
            return Ok(false);
        }
    }
    Ok(true)
}

#[test]
fn each_call_of_the_outputs_fails(rt: HostRuntime) -> Result<(), Fail> {
    hold(do_all_fail(&rt))
}
