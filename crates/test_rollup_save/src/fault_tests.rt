//! Calls of the input that fail.

use crate::asked::{is_right, saved};
use pipe_csv::CsvError;
use std::alloc::Global;
use std::test::Fail;
use std::thread::Threads;

/// How many calls of the input both files take.
const CALLS: u64 = 6;

/// Whether saving fails for the input.
fn fails<H: Threads + Sync>(rt: &H, alloc: Global, call: u64) -> Result<bool, Fail> {
    match saved(rt, alloc, Some(call))? {
        Err(CsvError::Input) => Ok(true),
        Err(_) => Err("another error".into()),
        Ok(text) => {
            if is_right(&text) {
                Ok(false)
            } else {
                Err("another text".into())
            }
        }
    }
}

/// Each input call in turn fails.
#[test]
fn each_call_fails(rt: HostRuntime) -> Result<(), Fail> {
    for call in 0..CALLS + 2 {
        if fails(&rt, rt.alloc(), call)? != (call < CALLS) {
            return Err("another end".into());
        }
    }
    Ok(())
}
