//! A partition of a run: what it holds is the replay of its journal.

ghost use Rattle.std.specs.Prelude.{◌≡◌, ◌+◌, ◌-◌, ◌<◌, ◌≤◌, ◌^◌, ◌∷◌, ◌++◌, [], IfErr, IfOk, IsTrue, OnErr, OnOk, Some, length, slice_index_or, true};
ghost use Rattle.pipe_columns.specs.Causes.{Rose};
ghost use Rattle.pipe_aggs.specs.CheckedQuery.{input_types};
ghost use Rattle.pipe_waiting.specs.Waiting.{AreWaiting, payload_read};
ghost use Rattle.pipe_plan.specs.declared.event.PartitionEvent.TheVariants as event;
ghost use Rattle.pipe_global.specs.Next.{next_event, next_payload};
ghost use Rattle.pipe_global.specs.Partition.{IsReplayed, store_of};
ghost use Rattle.pipe_global.specs.Shares.{refused_puts_in, one_more_at, raised, refused_one, share_of};
ghost use Rattle.pipe_global.specs.Refused.{IsKeptBut};
ghost use Rattle.pipe_global.specs.declared.dump_error.DumpError.TheVariants as dump_error;

use crate::contents::Contents;
use crate::dump_error::DumpError;
use crate::journal::Journal;
use crate::naming::{Naming, OfPartitions, OfRefusals};
use crate::shares::Shares;
use crate::tally::Tally;
use pipe_spill::{SpillPayload, SpillStore};
use pipe_waiting::WaitingRows;
use std::alloc::{AllocError, Global};
use std::marker::Model;
use std::sync::ledger::Share;
use std::sync::{Mutex, Wait};

/// A partition of a run. Whenever its lock is free it stands for the replay of its journal, which
/// holds a front of each worker's plan.
#[derive(Drop)]
pub struct Partition<S: SpillStore + Drop, R: Naming> {
    pub(crate) contents: Contents<S>,
    pub(crate) limit: usize,
    pub(crate) event_part: Share<OfPartitions<R>>,
    pub(crate) fault_part: Share<OfRefusals<R>>,
}

impl<S: SpillStore + Drop, R: Naming> Model for Partition<S, R> {
    ghost use Rattle.std.specs.Prelude.{◌≡◌, length};
    ghost use Rattle.pipe_global.specs.Partition.{IsCounted, IsReplayed, IsRunnable, PartitionSeen};

    ghost Value = { PartitionSeen };

    ghost view = { λ p. p.contents };

    ghost invariant = { λ p. IsRunnable R.run
        × IsReplayed R.run p.contents.number p.contents
        × IsCounted R.run p.fault_part.amount p.contents
        × (p.limit ≡ R.run.limits.payload_limit)
        × (p.event_part.parts ≡ 1) × (p.event_part.amount ≡ length p.contents.journal)
        × (p.fault_part.parts ≡ 1) };
}

impl<S: SpillStore + Drop, R: Naming> Partition<S, R> {
    /// Its number.
    pub fn number(&self) -> usize
        ensures is { result ≡ self.now.number }
        ensures in_run { result < R.run.limits.partitions }
        ensures replayed { IsReplayed R.run result self.now }
    {
        self.contents.number()
    }

    /// How many of its events are a worker's.
    pub fn book(&self, worker: usize) -> u64
        requires { worker < R.run.limits.workers }
        ensures { result ≡ slice_index_or self.now.book worker 0 }
    {
        self.contents.book(worker)
    }

    /// Its events so far.
    pub fn journal(&self) -> &Journal
        ensures { result.now ≡ self.now.journal }
    {
        self.contents.journal()
    }

    /// How many payloads wait.
    pub fn waiting(&self) -> usize
        ensures { result ≡ length self.now.waiting }
    {
        self.contents.waiting()
    }

    /// How many rows arrived.
    pub fn arrived(&self) -> u64
        ensures { result ≡ self.now.arrived }
    {
        self.contents.arrived()
    }

    /// Whether its store refused a put in this run.
    pub fn failed(&self) -> bool
        ensures is { result ≡ self.now.failed }
        ensures cause { IsTrue result
            → Rose (store_of R.run self.now.number).faults self.now.store.faults }
    {
        self.contents.failed()
    }

    /// The bytes of the worker's next payload.
    fn bytes_of(
        &self,
        shares: &Shares<R>,
        payload: &SpillPayload,
    ) -> Result<WaitingRows, AllocError>
        requires next { next_event R.run shares.now self.now.number
            ≡ Some (event.Arrive shares.now.worker) }
        requires same { slice_index_or self.now.book shares.now.worker 0
            ≡ share_of shares.now self.now.number }
        requires piece { payload.now ≡ next_payload R.run shares.now self.now.number }
        ensures typed { IfOk result (AreWaiting (input_types R.run.query)) }
        ensures rows { IfOk result
            (λ w. payload_read (input_types R.run.query) w ≡ payload.now) }
    {
        // Called for what its clauses say.
        let _worker = shares.worker();
        self.contents.bytes_of(payload)
    }

    /// The worker's next payload comes to wait.
    pub fn arrive<H: Wait>(
        &mut self,
        rt: &H,
        tally: &Mutex<Tally<R>>,
        shares: &mut Shares<R>,
        payload: SpillPayload,
    ) -> Result<(), (AllocError, SpillPayload)>
        requires next { next_event R.run shares.old self.old.number
            ≡ Some (event.Arrive shares.old.worker) }
        requires same { slice_index_or self.old.book shares.old.worker 0
            ≡ share_of shares.old self.old.number }
        requires piece { payload ≡ next_payload R.run shares.old self.old.number }
        ensures journal { OnOk result (self.new.journal
            ≡ self.old.journal ++ event.Arrive shares.old.worker ∷ []) }
        ensures book { OnOk result
            (self.new.book ≡ one_more_at self.old.book shares.old.worker) }
        ensures waiting { OnOk result (self.new.waiting ≡ self.old.waiting ++ payload ∷ []) }
        ensures number { self.new.number ≡ self.old.number }
        ensures failed { self.new.failed ≡ self.old.failed }
        ensures shares { OnOk result (shares.new ≡ raised shares.old self.old.number) }
        ensures err { OnErr result (self.new ≡ self.old) }
        ensures shares_err { OnErr result (shares.new ≡ shares.old) }
        ensures back { IfErr result (λ e. e.1 ≡ payload) }
    {
        let Ok(rows) = self.bytes_of(&*shares, &payload) else {
            return Err((AllocError, payload));
        };
        match self.arrive_waiting(rt, tally, shares, rows) {
            Ok(()) => Ok(()),
            Err((AllocError, _rows)) => Err((AllocError, payload)),
        }
    }

    /// The worker's next payload comes to wait, as the bytes of its rows.
    pub fn arrive_waiting<H: Wait>(
        &mut self,
        rt: &H,
        tally: &Mutex<Tally<R>>,
        shares: &mut Shares<R>,
        rows: WaitingRows,
    ) -> Result<(), (AllocError, WaitingRows)>
        requires next { next_event R.run shares.old self.old.number
            ≡ Some (event.Arrive shares.old.worker) }
        requires same { slice_index_or self.old.book shares.old.worker 0
            ≡ share_of shares.old self.old.number }
        requires typed { AreWaiting (input_types R.run.query) rows }
        requires piece { payload_read (input_types R.run.query) rows
            ≡ next_payload R.run shares.old self.old.number }
        ensures journal { OnOk result (self.new.journal
            ≡ self.old.journal ++ event.Arrive shares.old.worker ∷ []) }
        ensures book { OnOk result
            (self.new.book ≡ one_more_at self.old.book shares.old.worker) }
        ensures waiting { OnOk result (self.new.waiting
            ≡ self.old.waiting ++ payload_read (input_types R.run.query) rows ∷ []) }
        ensures number { self.new.number ≡ self.old.number }
        ensures failed { self.new.failed ≡ self.old.failed }
        ensures shares { OnOk result (shares.new ≡ raised shares.old self.old.number) }
        ensures err { OnErr result (self.new ≡ self.old) }
        ensures shares_err { OnErr result (shares.new ≡ shares.old) }
        ensures back { IfErr result (λ e. e.1 ≡ rows) }
    {
        let worker = shares.worker();
        let partition = self.contents.number();
        // Called for what its clauses say.
        let _events = self.contents.events();
        self.contents.arrive(worker, rows)?;
        shares.raise(&mut tally.lock(rt), &mut self.event_part, partition);
        Ok(())
    }

    /// What waits is merged. A refusal leaves all but room.
    pub fn merge<H: Wait>(
        &mut self,
        rt: &H,
        alloc: Global,
        tally: &Mutex<Tally<R>>,
        shares: &mut Shares<R>,
    ) -> Result<(), AllocError>
        requires next { next_event R.run shares.old self.old.number
            ≡ Some (event.Merge shares.old.worker) }
        requires same { slice_index_or self.old.book shares.old.worker 0
            ≡ share_of shares.old self.old.number }
        ensures journal { OnOk result (self.new.journal
            ≡ self.old.journal ++ event.Merge shares.old.worker ∷ []) }
        ensures book { OnOk result
            (self.new.book ≡ one_more_at self.old.book shares.old.worker) }
        ensures waiting { OnOk result (self.new.waiting ≡ []) }
        ensures number { self.new.number ≡ self.old.number }
        ensures failed { self.new.failed ≡ self.old.failed }
        ensures shares { OnOk result (shares.new ≡ raised shares.old self.old.number) }
        ensures err { OnErr result (IsKeptBut self.old self.new self.old.failed) }
        ensures shares_err { OnErr result (shares.new ≡ shares.old) }
    {
        let worker = shares.worker();
        let partition = self.contents.number();
        // Called for what its clauses say.
        let _events = self.contents.events();
        self.contents.merge(alloc, worker)?;
        shares.raise(&mut tally.lock(rt), &mut self.event_part, partition);
        Ok(())
    }

    /// What waits is put as one frame, where more payloads wait than the limit. Where the store
    /// failed, the partition is failed, and all else is as before but the store's faults.
    pub fn dump<H: Wait>(
        &mut self,
        rt: &H,
        alloc: Global,
        tally: &Mutex<Tally<R>>,
        shares: &mut Shares<R>,
    ) -> Result<(), DumpError>
        requires next { next_event R.run shares.old self.old.number
            ≡ Some (event.Dump shares.old.worker) }
        requires same { slice_index_or self.old.book shares.old.worker 0
            ≡ share_of shares.old self.old.number }
        requires room { refused_puts_in shares.old self.old.number < 2 ^ 64 - 1 }
        ensures journal { OnOk result (self.new.journal
            ≡ self.old.journal ++ event.Dump shares.old.worker ∷ []) }
        ensures book { OnOk result
            (self.new.book ≡ one_more_at self.old.book shares.old.worker) }
        ensures number { self.new.number ≡ self.old.number }
        ensures failed { OnOk result (self.new.failed ≡ self.old.failed) }
        ensures shares { OnOk result (shares.new ≡ raised shares.old self.old.number) }
        ensures store { IfErr result (λ e. e ≡ dump_error.Store
            → IsKeptBut self.old self.new true
            × Rose self.old.store.faults self.new.store.faults) }
        ensures fault { IfErr result (λ e. e ≡ dump_error.Store
            → shares.new ≡ refused_one shares.old self.old.number) }
        ensures memory { IfErr result (λ e. e ≡ dump_error.Memory
            → IsKeptBut self.old self.new self.old.failed × (shares.new ≡ shares.old)) }
    {
        let worker = shares.worker();
        let partition = self.contents.number();
        // Called for what its clauses say.
        let _events = self.contents.events();
        match self.contents.dump(alloc, worker, self.limit) {
            Ok(()) => {}
            Err(DumpError::Store) => {
                shares.refuse(&mut tally.lock(rt), &mut self.fault_part, partition);
                return Err(DumpError::Store);
            }
            Err(DumpError::Memory) => {
                return Err(DumpError::Memory);
            }
        }
        // Called for what its clauses say.
        let _more = self.contents.events();
        shares.raise(&mut tally.lock(rt), &mut self.event_part, partition);
        Ok(())
    }
}
