//! An output that fails at each of its calls in turn.

use crate::made::{blank_chunks, output, texts};
use crate::sinks::{hold, run_one};
use pipe_columns::Schema;
use pipe_writers::WriteError;
use std::alloc::Global;
use std::sync::Wait;
use std::test::Fail;
use std::thread::Threads;

/// How often the output is called where no call fails.
const CALLS: u64 = 3;

/// How the writing of a sink ends that takes three chunks, each a piece, and whose output fails at a call.
fn failing<H>(
    rt: H,
    alloc: Global,
    schema: &Schema,
    call: u64,
) -> Result<Result<(), WriteError>, Fail>
where
    H: Threads + Wait + Copy + Send + 'static,
{
    let output = output(alloc, &[call])?;
    run_one(rt, alloc, output, schema, blank_chunks(alloc, 3)?)
}

/// Whether each call that fails is told, and no other one.
fn tells_each<H>(rt: H, alloc: Global, schema: &Schema) -> Result<bool, Fail>
where
    H: Threads + Wait + Copy + Send + 'static,
{
    for call in 0..CALLS {
        if failing(rt, alloc, schema, call)? != Err(WriteError::Output) {
            return Ok(false);
        }
    }
    Ok(failing(rt, alloc, schema, CALLS)?.is_ok())
}

#[test]
fn output_that_fails_at_each_call(rt: HostRuntime) -> Result<(), Fail> {
    let schema = texts(rt.alloc())?;
    hold(tells_each(rt, rt.alloc(), &schema))
}
