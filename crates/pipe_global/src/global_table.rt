//! The partitions of a run, each behind a lock.

ghost use Rattle.std.specs.Prelude.{◌≡◌, ◌-◌, ◌<◌, ◌≤◌, ◌^◌, IfErr, OnErr, OnOk, Some, slice_index_or, vec_capacity, vec_len};
ghost use Rattle.std.specs.Sync.Mutex.{mutex_guard_value};
ghost use Rattle.pipe_aggs.specs.CheckedQuery.{input_types};
ghost use Rattle.pipe_plan.specs.declared.event.PartitionEvent.TheVariants as event;
ghost use Rattle.pipe_waiting.specs.Waiting.{AreWaiting, payload_read};
ghost use Rattle.pipe_global.specs.Next.{next_event, next_payload};
ghost use Rattle.pipe_global.specs.Shares.{refused_puts_in, next_pick, one_more_pick, raised, refused_one};
ghost use Rattle.pipe_global.specs.declared.dump_error.DumpError.TheVariants as dump_error;

use crate::closed::ClosedPartition;
use crate::dump_error::DumpError;
use crate::gate::Gate;
use crate::naming::Naming;
use crate::partition::Partition;
use crate::shares::Shares;
use crate::tally::Tally;
use pipe_spill::{SpillPayload, SpillStore};
use pipe_waiting::WaitingRows;
use std::alloc::{AllocError, Global};
use std::marker::{Model, PhantomData};
use std::sync::{Mutex, MutexGuard, Wait};

/// The partitions of a run, which workers enter in any order, and the tally of their events.
/// Contracts see how many partitions there are.
#[derive(Drop)]
pub struct GlobalTable<S: SpillStore + Drop, R: Naming> {
    pub(crate) partitions: Vec<Mutex<Partition<S, R>>>,
    pub(crate) tally: Mutex<Tally<R>>,
    pub(crate) room: Mutex<Room<S, R>>,
}

/// Room for all partitions of a run, once they are closed.
#[derive(Drop)]
pub(crate) struct Room<S: SpillStore + Drop, R: Naming> {
    list: Vec<ClosedPartition<S>>,
    of: PhantomData<R>,
}

impl<S: SpillStore + Drop, R: Naming> Model for Room<S, R> {
    ghost use Rattle.std.specs.Prelude.{◌≡◌, ◌≤◌, ℕ, vec_capacity, vec_len};

    ghost Value = { ℕ };

    ghost view = { λ r. vec_capacity r.list };

    ghost invariant = { λ r. (vec_len r.list ≡ 0)
        × (R.run.limits.partitions ≤ vec_capacity r.list) };
}

impl<S: SpillStore + Drop, R: Naming> Room<S, R> {
    /// Takes the room for all partitions.
    pub(crate) fn new(alloc: Global, partitions: usize) -> Result<Room<S, R>, AllocError>
        requires { partitions ≡ R.run.limits.partitions }
    {
        let list = Vec::with_capacity(alloc, partitions)?;
        Ok(Room {
            list,
            of: PhantomData,
        })
    }

    /// The empty list with the room.
    pub(crate) fn into_list(self) -> Vec<ClosedPartition<S>>
        ensures none { vec_len result ≡ 0 }
        ensures room { R.run.limits.partitions ≤ vec_capacity result }
    {
        let Room { list, of: _ } = self;
        list
    }
}

impl<S: SpillStore + Drop, R: Naming> Model for GlobalTable<S, R> {
    ghost use Rattle.std.specs.Prelude.{◌≡◌, ◌<◌, ℕ, vec_len};

    ghost Value = { ℕ };

    ghost view = { λ t. vec_len t.partitions };

    ghost invariant = { λ t. (vec_len t.partitions ≡ R.run.limits.partitions)
        × (0 < R.run.limits.partitions) };
}

impl<S: SpillStore + Drop, R: Naming> GlobalTable<S, R> {
    /// Takes the lock of a partition, and again where another number or another book is found.
    fn locked<H: Wait>(
        &self,
        rt: &H,
        partition: usize,
        worker: usize,
        count: u64,
    ) -> MutexGuard<'_, Partition<S, R>>
        requires partition { partition < R.run.limits.partitions }
        requires worker { worker < R.run.limits.workers }
        ensures number { (mutex_guard_value result).number ≡ partition }
        ensures book { slice_index_or (mutex_guard_value result).book worker 0 ≡ count }
    {
        for _ in rt.forever() {
            let guard = self.partitions[partition].lock(rt);
            if guard.number() == partition && guard.book(worker) == count {
                return guard;
            }
        }
        unreachable!()
    }

    /// The worker's next payload arrives in a partition.
    pub fn spill<G: Gate, H: Wait>(
        &self,
        rt: &H,
        gate: &G,
        shares: &mut Shares<R>,
        partition: usize,
        payload: SpillPayload,
    ) -> Result<(), (AllocError, SpillPayload)>
        requires exists { partition < R.run.limits.partitions }
        requires next { next_event R.run shares.old partition
            ≡ Some (event.Arrive shares.old.worker) }
        requires piece { payload ≡ next_payload R.run shares.old partition }
        ensures ok { OnOk result (shares.new ≡ raised shares.old partition) }
        ensures err { OnErr result (shares.new ≡ shares.old) }
        ensures back { IfErr result (λ e. e.1 ≡ payload) }
    {
        let worker = shares.worker();
        let count = shares.of(partition);
        let mut guard = self.locked(rt, partition, worker, count);
        gate.inside(worker, partition);
        guard.arrive(rt, &self.tally, shares, payload)
    }

    /// The worker's next payload arrives in a partition, as the bytes of its rows.
    pub fn spill_waiting<G: Gate, H: Wait>(
        &self,
        rt: &H,
        gate: &G,
        shares: &mut Shares<R>,
        partition: usize,
        rows: WaitingRows,
    ) -> Result<(), (AllocError, WaitingRows)>
        requires exists { partition < R.run.limits.partitions }
        requires next { next_event R.run shares.old partition
            ≡ Some (event.Arrive shares.old.worker) }
        requires typed { AreWaiting (input_types R.run.query) rows }
        requires piece { payload_read (input_types R.run.query) rows
            ≡ next_payload R.run shares.old partition }
        ensures ok { OnOk result (shares.new ≡ raised shares.old partition) }
        ensures err { OnErr result (shares.new ≡ shares.old) }
        ensures back { IfErr result (λ e. e.1 ≡ rows) }
    {
        let worker = shares.worker();
        let count = shares.of(partition);
        let mut guard = self.locked(rt, partition, worker, count);
        gate.inside(worker, partition);
        guard.arrive_waiting(rt, &self.tally, shares, rows)
    }

    /// What waits in the partition of the worker's next pick is merged.
    pub fn early_merge<G: Gate, H: Wait>(
        &self,
        rt: &H,
        alloc: Global,
        gate: &G,
        shares: &mut Shares<R>,
    ) -> Result<(), AllocError>
        requires next { next_event R.run shares.old (next_pick R.run.limits.partitions shares.old)
            ≡ Some (event.Merge shares.old.worker) }
        ensures ok { OnOk result (shares.new
            ≡ one_more_pick (raised shares.old (next_pick R.run.limits.partitions shares.old))) }
        ensures err { OnErr result (shares.new ≡ shares.old) }
    {
        // Called for what its clauses say.
        let _partitions = self.len();
        let (worker, partition) = (shares.worker(), shares.next_pick()?);
        let count = shares.of(partition);
        let mut guard = self.locked(rt, partition, worker, count);
        gate.inside(worker, partition);
        guard.merge(rt, alloc, &self.tally, shares)?;
        shares.pick();
        Ok(())
    }

    /// What waits in the partition of the worker's next pick is dumped.
    pub fn dump<G: Gate, H: Wait>(
        &self,
        rt: &H,
        alloc: Global,
        gate: &G,
        shares: &mut Shares<R>,
    ) -> Result<(), DumpError>
        requires next { next_event R.run shares.old (next_pick R.run.limits.partitions shares.old)
            ≡ Some (event.Dump shares.old.worker) }
        requires room { refused_puts_in shares.old (next_pick R.run.limits.partitions shares.old)
            < 2 ^ 64 - 1 }
        ensures ok { OnOk result (shares.new
            ≡ one_more_pick (raised shares.old (next_pick R.run.limits.partitions shares.old))) }
        ensures store { IfErr result (λ e. e ≡ dump_error.Store → shares.new
            ≡ refused_one shares.old (next_pick R.run.limits.partitions shares.old)) }
        ensures memory { IfErr result
            (λ e. e ≡ dump_error.Memory → shares.new ≡ shares.old) }
    {
        // Called for what its clauses say.
        let _partitions = self.len();
        let Ok(partition) = shares.next_pick() else {
            return Err(DumpError::Memory);
        };
        let worker = shares.worker();
        let count = shares.of(partition);
        let mut guard = self.locked(rt, partition, worker, count);
        gate.inside(worker, partition);
        match guard.dump(rt, alloc, &self.tally, shares) {
            Ok(()) => {
                shares.pick();
                Ok(())
            }
            Err(error) => Err(error),
        }
    }

    /// How many partitions there are.
    pub fn len(&self) -> usize
        ensures is { result ≡ R.run.limits.partitions }
        ensures some { 0 < R.run.limits.partitions }
    {
        self.partitions.len()
    }
}
