//! Calls that want memory: `rt try --test --fail-alloc N` refuses the allocation of number N.

use crate::finish::{Asks, gives, gives_sum, is_sum};
use crate::plan_tests::stores_of;
use pipe_global::{BatchError, ClosedPartition};
use pipe_spill::MemoryStore;
use pipe_tables::AggHashTable;
use std::alloc::Global;
use std::test::Fail;

/// A call that wants memory is made again.
struct InTwo;

impl Asks<MemoryStore> for InTwo {
    fn gives(
        &self,
        alloc: Global,
        closed: &mut ClosedPartition<MemoryStore>,
        local: &mut AggHashTable,
    ) -> bool {
        match closed.finish(alloc, local, &mut None) {
            Ok(frame) => return is_sum(&frame),
            Err(BatchError::Memory) => {}
            Err(_) => return false,
        }
        gives_sum(alloc, closed, local)
    }
}

/// A call that wants memory is made again, and then loses no row.
#[test]
fn memory_for_groups(rt: HostRuntime) -> Result<(), Fail> {
    let stores = stores_of(rt.alloc(), &[])?;
    assert!(rt; gives(&rt, rt.alloc(), stores, &InTwo)?);
    Ok(())
}
