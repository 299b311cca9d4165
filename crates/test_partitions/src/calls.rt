//! Calls of a worker. One that wants memory is made again, as `rt try --test --fail-alloc N` refuses the
//! allocation of number N.

ghost use Rattle.std.specs.Prelude.{◌≡◌, ◌-◌, ◌<◌, ◌^◌, OnOk, Some};
ghost use Rattle.pipe_plan.specs.declared.event.PartitionEvent.TheVariants as event;
ghost use Rattle.pipe_global.specs.Next.{next_event, next_payload};
ghost use Rattle.pipe_global.specs.Shares.{refused_puts_in, next_pick, one_more_pick, raised};

use pipe_global::{DumpError, GlobalTable, Naming, OpenGate, Shares};
use pipe_spill::{SpillPayload, SpillStore};
use std::alloc::Global;
use std::sync::Wait;
use std::test::Fail;

/// The worker's next payload arrives in a partition.
pub(crate) fn arrive<S: SpillStore + Drop, R: Naming, H: Wait>(
    rt: &H,
    table: &GlobalTable<S, R>,
    shares: &mut Shares<R>,
    partition: usize,
    payload: SpillPayload,
) -> Result<(), Fail>
    requires exists { partition < R.run.limits.partitions }
    requires next { next_event R.run shares.old partition
        ≡ Some (event.Arrive shares.old.worker) }
    requires piece { payload ≡ next_payload R.run shares.old partition }
    ensures { OnOk result (shares.new ≡ raised shares.old partition) }
{
    let Err((_, back)) = table.spill(rt, &OpenGate, shares, partition, payload) else {
        return Ok(());
    };
    match table.spill(rt, &OpenGate, shares, partition, back) {
        Ok(()) => Ok(()),
        Err(_) => Err("GlobalTable::spill wants memory".into()),
    }
}

/// What waits in the partition of the worker's next pick is dumped into a store that doesn't refuse it.
pub(crate) fn dump<S: SpillStore + Drop, R: Naming, H: Wait>(
    rt: &H,
    alloc: Global,
    table: &GlobalTable<S, R>,
    shares: &mut Shares<R>,
) -> Result<(), Fail>
    requires next { next_event R.run shares.old (next_pick R.run.limits.partitions shares.old)
        ≡ Some (event.Dump shares.old.worker) }
    requires room { refused_puts_in shares.old (next_pick R.run.limits.partitions shares.old)
        < 2 ^ 64 - 1 }
    ensures { OnOk result (shares.new
        ≡ one_more_pick (raised shares.old (next_pick R.run.limits.partitions shares.old))) }
{
    match table.dump(rt, alloc, &OpenGate, shares) {
        Ok(()) => return Ok(()),
        Err(DumpError::Store) => return Err("the store failed".into()),
        Err(DumpError::Memory) => {}
    }
    match table.dump(rt, alloc, &OpenGate, shares) {
        Ok(()) => Ok(()),
        Err(DumpError::Store) => Err("the store failed".into()),
        Err(DumpError::Memory) => Err("GlobalTable::dump wants memory".into()),
    }
}

/// The same, into a store that may refuse it once.
pub(crate) fn dump_refused<S: SpillStore + Drop, R: Naming, H: Wait>(
    rt: &H,
    alloc: Global,
    table: &GlobalTable<S, R>,
    shares: &mut Shares<R>,
) -> Result<(), Fail>
    requires next { next_event R.run shares.old (next_pick R.run.limits.partitions shares.old)
        ≡ Some (event.Dump shares.old.worker) }
    requires none { refused_puts_in shares.old (next_pick R.run.limits.partitions shares.old) ≡ 0 }
{
    match table.dump(rt, alloc, &OpenGate, shares) {
        Ok(()) => return Ok(()),
        Err(DumpError::Store) => return dump(rt, alloc, table, shares),
        Err(DumpError::Memory) => {}
    }
    match table.dump(rt, alloc, &OpenGate, shares) {
        Ok(()) => Ok(()),
        Err(DumpError::Store) => dump(rt, alloc, table, shares),
        Err(DumpError::Memory) => Err("GlobalTable::dump wants memory".into()),
    }
}
