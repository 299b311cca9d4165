//! The groups of a partition to which one worker's plan brought its rows, behind a get that failed.

ghost use Rattle.std.specs.Prelude.{IsTrue};
ghost use Rattle.pipe_global.specs.Finishing.{CanFinish};

use crate::finish::{Asks, gives, is_sum};
use crate::plan_tests::stores_of;
use pipe_columns::Place;
use pipe_global::{BatchError, ClosedPartition};
use pipe_groups::PlacedGroups;
use pipe_spill::MemoryStore;
use pipe_tables::AggHashTable;
use std::alloc::Global;
use std::test::Fail;

/// Whether a call tells that a get failed.
fn tells_fault(
    alloc: Global,
    closed: &mut ClosedPartition<MemoryStore>,
    local: &mut AggHashTable,
) -> bool
    requires { CanFinish closed.old local.old }
    ensures { IsTrue result → CanFinish closed.new local.new }
{
    match closed.finish_placed(alloc, local) {
        Err(BatchError::Store { partition: 1 }) => true,
        Err(_) => false,
        Ok(_) => false,
    }
}

/// Whether groups are the group of both rows, whose first is row 1 of chunk 1.
fn are_placed(placed: &PlacedGroups) -> bool {
    is_sum(&placed.frame) && placed.firsts.as_slice() == [Place { chunk: 1, row: 1 }].as_slice()
}

/// Whether a partition gives the group of both rows, with its first place.
fn gives_placed(
    alloc: Global,
    closed: &mut ClosedPartition<MemoryStore>,
    local: &mut AggHashTable,
) -> bool
    requires { CanFinish closed.old local.old }
{
    match closed.finish_placed(alloc, local) {
        Ok(placed) => are_placed(&placed),
        Err(_) => false,
    }
}

/// The first get fails, and the second call gives the groups with their places.
struct AfterFault;

impl Asks<MemoryStore> for AfterFault {
    fn gives(
        &self,
        alloc: Global,
        closed: &mut ClosedPartition<MemoryStore>,
        local: &mut AggHashTable,
    ) -> bool {
        tells_fault(alloc, closed, local) && gives_placed(alloc, closed, local)
    }
}

#[test]
fn a_get_that_fails(rt: HostRuntime) -> Result<(), Fail> {
    let stores = stores_of(rt.alloc(), &[1])?;
    assert!(rt; gives(&rt, rt.alloc(), stores, &AfterFault)?);
    Ok(())
}
