//! A sink of two senders, each in a thread of its own.

use crate::made::{blank_chunks, output, texts};
use crate::pairs::run_two;
use crate::sinks::hold;
use pipe_columns::Schema;
use std::alloc::Global;
use std::sync::Wait;
use std::test::Fail;
use std::thread::Threads;

/// How many sinks are tried, since threads run as they like.
const ROUNDS: u32 = 100;

/// Whether a sink writes the two chunks that one sender was given, and the one of the other.
fn writes<H>(rt: H, alloc: Global, schema: &Schema) -> Result<bool, Fail>
where
    H: Threads + Wait + Copy + Send + 'static,
{
    let output = output(alloc, &[])?;
    let first = blank_chunks(alloc, 2)?;
    run_two(rt, alloc, output, schema, first, blank_chunks(alloc, 1)?)
}

/// Whether each of many sinks does.
fn writes_each<H>(rt: H, alloc: Global, schema: &Schema) -> Result<bool, Fail>
where
    H: Threads + Wait + Copy + Send + 'static,
{
    for _round in 0..ROUNDS {
        if !writes(rt, alloc, schema)? {
            return Ok(false);
        }
    }
    Ok(true)
}

#[test]
fn two_senders_in_threads(rt: HostRuntime) -> Result<(), Fail> {
    let schema = texts(rt.alloc())?;
    hold(writes_each(rt, rt.alloc(), &schema))
}
