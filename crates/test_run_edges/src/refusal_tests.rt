//! How a refused run is shown.

use pipe_aggs::QueryFault;
use pipe_global::BatchError;
use pipe_run::PipeError;
use std::alloc::Global;
use std::fmt::Display;
use std::process::Abort;
use std::test::Fail;

/// A refusal is shown as a line that the program has for it.
fn assert_shown<E: Display>(
    rt: &impl Abort,
    alloc: Global,
    refusal: &E,
    due: &str,
) -> Result<(), Fail> {
    let shown = format!(in alloc; "{refusal}")?;
    assert!(rt; shown.as_str() == due);
    Ok(())
}

#[test]
fn refusals_are_shown(rt: HostRuntime) -> Result<(), Fail> {
    let alloc = rt.alloc();
    for (refusal, due) in [
        (PipeError::Limits, "limits refused"),
        (PipeError::Query(QueryFault::NoKey), "query refused: NoKey"),
        (PipeError::Sink, "sink does not fit"),
        (PipeError::Schema { chunk: 3 }, "chunk 3 does not fit"),
        (PipeError::TooLarge, "too large"),
        (PipeError::Store { partition: 2 }, "store 2 failed"),
        (PipeError::Memory, "out of memory"),
    ] {
        assert_shown(&rt, alloc, &refusal, due)?;
    }
    let (partition, number) = (1, 18_446_744_073_709_551_615);
    let due = "store 1 frame 18446744073709551615 damaged";
    assert_shown(&rt, alloc, &PipeError::Damaged { partition, number }, due)?;
    assert_shown(&rt, alloc, &BatchError::Damaged { partition, number }, due)
}
