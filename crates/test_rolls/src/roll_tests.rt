//! What comes of files.

use crate::asked::{Gives, come_of};
use rollup_roll::RollError;
use std::alloc::Global;
use std::test::Fail;

/// No call has this number.
const NONE: u64 = 99;

/// Fails where something else comes of files.
fn check(alloc: Global, names: &[&str], failing: u64, due: Gives) -> Result<(), Fail> {
    if come_of(alloc, names, failing)? == due {
        Ok(())
    } else {
        Err("something else".into())
    }
}

#[test]
fn two_states_in_either_order(rt: HostRuntime) -> Result<(), Fail> {
    check(rt.alloc(), &["a", "b"], NONE, Gives::Sum(12))?;
    check(rt.alloc(), &["b", "a"], NONE, Gives::Sum(12))
}

#[test]
fn no_file(rt: HostRuntime) -> Result<(), Fail> {
    check(rt.alloc(), &[], NONE, Gives::Frame)
}

#[test]
fn second_file_is_missing(rt: HostRuntime) -> Result<(), Fail> {
    let due = Gives::Error(RollError::Missing { file: 2 });
    check(rt.alloc(), &["a", "c", "cut"], NONE, due)
}

#[test]
fn second_file_is_no_state(rt: HostRuntime) -> Result<(), Fail> {
    let due = Gives::Error(RollError::NotAState { file: 2 });
    check(rt.alloc(), &["a", "cut", "a"], NONE, due)
}

#[test]
fn third_file_overlaps(rt: HostRuntime) -> Result<(), Fail> {
    let due = Gives::Error(RollError::Overlap { file: 3 });
    check(rt.alloc(), &["b", "a", "a"], NONE, due)
}

/// Each file takes three calls: it is begun, read, and read to its end.
#[test]
fn each_call_fails(rt: HostRuntime) -> Result<(), Fail> {
    for call in 0..6 {
        check(
            rt.alloc(),
            &["a", "b"],
            call,
            Gives::Error(RollError::Input),
        )?;
    }
    check(rt.alloc(), &["a", "b"], 6, Gives::Sum(12))
}
