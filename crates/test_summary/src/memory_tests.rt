//! A summary in one frame, which answers alike, and whose calls are made again where memory was
//! wanting.

use crate::asked::sum_and_count;
use crate::lives::lives_with;
use std::test::Fail;

#[test]
fn lives_again(rt: HostRuntime) -> Result<(), Fail> {
    let query = sum_and_count(rt.alloc())?;
    assert!(rt; lives_with(rt.alloc(), &query, (99, 99), 0)?);
    Ok(())
}
