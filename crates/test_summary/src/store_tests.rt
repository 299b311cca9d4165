//! Two stores of which each call fails in turn, under every call of a summary.

use crate::asked::sum_and_count;
use crate::lives::lives_with;
use std::test::Fail;

/// A call that no life makes.
const NEVER: u64 = 99;

/// The calls that a life makes of its store.
const OF_ITS_STORE: u64 = 10;

#[test]
fn each_call_of_a_store_fails(rt: HostRuntime) -> Result<(), Fail> {
    let query = sum_and_count(rt.alloc())?;
    for call in 0..13 {
        let failing = if call < OF_ITS_STORE {
            (call, NEVER)
        } else {
            (NEVER, call - OF_ITS_STORE)
        };
        let lives = lives_with(rt.alloc(), &query, failing, 1)?;
        assert!(rt; lives, "call {call} fails");
    }
    Ok(())
}
