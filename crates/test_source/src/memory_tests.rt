//! Reads that want memory: `rt try --test --fail-alloc N` refuses the allocation of number N. A
//! call that is refused is made again, and no row is lost; then the test tells that it was refused.

use crate::hold::hold;
use crate::made::TWO_FILES;
use crate::reader_tests::rounds_give;
use crate::source_tests::calls_give_three;
use std::test::Fail;

#[test]
fn memory_for_one_chunk_at_a_call(rt: HostRuntime) -> Result<(), Fail> {
    hold(calls_give_three(rt.alloc(), &TWO_FILES, &[]))
}

#[test]
fn memory_for_rounds(rt: HostRuntime) -> Result<(), Fail> {
    hold(rounds_give(&rt, rt.alloc(), &TWO_FILES, &[], (3, 2), "3"))
}
