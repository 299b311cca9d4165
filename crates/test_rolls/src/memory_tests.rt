//! Files that are rolled up where memory is wanting.

use crate::asked::{Gives, come_of};
use rollup_roll::RollError;
use std::test::Fail;

#[test]
fn two_files_where_memory_wants(rt: HostRuntime) -> Result<(), Fail> {
    match come_of(rt.alloc(), &["b", "a"], 99)? {
        Gives::Sum(12) => Ok(()),
        Gives::Error(RollError::Memory) => Err("roll_files wants memory".into()),
        _ => Err("something else".into()),
    }
}
