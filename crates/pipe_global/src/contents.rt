//! What a partition holds, as a plain value of no run.

ghost use Rattle.std.specs.Prelude.{◌≡◌, ◌+◌, ◌-◌, ◌<◌, ◌^◌, All, IfErr, IfOk, None, OnErr, OnOk, length, slice_index_or, true};
ghost use Rattle.pipe_columns.specs.Causes.{Rose};
ghost use Rattle.pipe_spill.specs.SpillRow.{HaveInputs, joined_rows};
ghost use Rattle.pipe_spill.specs.Store.{HasHeld};
ghost use Rattle.pipe_waiting.specs.Waiting.{AreWaiting, payload_read};
ghost use Rattle.pipe_plan.specs.Stores.{store_seen};
ghost use Rattle.pipe_global.specs.Partition.{new_partition};
ghost use Rattle.pipe_global.specs.Finishing.{HasNoFault};
ghost use Rattle.pipe_global.specs.Moving.{CanMerge};
ghost use Rattle.pipe_global.specs.Steps.{IsDumped, IsMerged, with_payload};
ghost use Rattle.pipe_global.specs.Refused.{IsKeptBut};
ghost use Rattle.pipe_global.specs.declared.dump_error.DumpError.TheVariants as dump_error;

use crate::dump_error::DumpError;
use crate::journal::Journal;
use crate::mark::Mark;
use crate::put::put_waiting;
use crate::take::take_waiting;
use pipe_plan::PartitionEvent;
use pipe_spill::{SpillPayload, SpillStore};
use pipe_tables::AggHashTable;
use pipe_waiting::WaitingRows;
use std::alloc::{AllocError, Global};
use std::marker::Model;

/// What a partition holds. What waits is bytes, which are seen as the payloads that they are read as,
/// and its store is seen as a run finds one.
#[derive(Drop)]
pub(crate) struct Contents<S: SpillStore + Drop> {
    pub(crate) number: usize,
    pub(crate) partitions: usize,
    pub(crate) table: AggHashTable,
    pub(crate) waiting: Vec<WaitingRows>,
    pub(crate) store: S,
    pub(crate) marks: Vec<Mark>,
    journal: Journal,
    book: Vec<u64>,
    arrived: u64,
    failed: bool,
}

impl<S: SpillStore + Drop> Model for Contents<S> {
    ghost use Rattle.pipe_plan.specs.Stores.{store_seen};
    ghost use Rattle.pipe_global.specs.Partition.{PartitionSeen};
    ghost use Rattle.pipe_global.specs.Waits.{AllWait, payloads_read};

    ghost Value = { PartitionSeen };

    ghost view = { λ c. record {
      number = c.number;
      partitions = c.partitions;
      table = c.table;
      waiting = payloads_read c.table.shape.input_types c.waiting.items;
      store = store_seen S.held S.told S.faults S.sure S.path c.store;
      marks = c.marks.items;
      journal = c.journal;
      book = c.book.items;
      arrived = c.arrived;
      failed = c.failed;
    } };

    ghost invariant = { λ c. AllWait c.table.shape.input_types c.waiting.items };
}

impl<S: SpillStore + Drop> Contents<S> {
    /// What a partition holds before its first event.
    pub(crate) fn new(
        alloc: Global,
        number: usize,
        partitions: usize,
        table: AggHashTable,
        book: Vec<u64>,
        store: S,
    ) -> Contents<S>
        ensures { result ≡ new_partition number partitions table book.items
            (store_seen S.held S.told S.faults S.sure S.path store) }
    {
        Contents {
            number,
            partitions,
            table,
            waiting: Vec::new(alloc),
            store,
            marks: Vec::new(alloc),
            journal: Journal::new(alloc),
            book,
            arrived: 0,
            failed: false,
        }
    }

    /// The partition's number.
    pub(crate) fn number(&self) -> usize
        ensures { result ≡ self.now.number }
    {
        self.number
    }

    /// How many events are a worker's.
    pub(crate) fn book(&self, worker: usize) -> u64
        requires { worker < length self.now.book }
        ensures { result ≡ slice_index_or self.now.book worker 0 }
    {
        self.book[worker]
    }

    /// The events so far.
    pub(crate) fn journal(&self) -> &Journal
        ensures is { result.now ≡ self.now.journal }
        ensures tells_all { HasHeld self.now.store.told self.now.store.held }
    {
        &self.journal
    }

    /// How many events there are: far fewer than a count can hold.
    pub(crate) fn events(&self) -> u64
        ensures is { result ≡ length self.now.journal }
        ensures small { result < 2 ^ 63 }
    {
        self.journal.events.len() as u64
    }

    /// How many payloads wait.
    pub(crate) fn waiting(&self) -> usize
        ensures { result ≡ length self.now.waiting }
    {
        self.waiting.len()
    }

    /// How many rows arrived.
    pub(crate) fn arrived(&self) -> u64
        ensures { result ≡ self.now.arrived }
    {
        self.arrived
    }

    /// Whether the store refused a put.
    pub(crate) fn failed(&self) -> bool
        ensures { result ≡ self.now.failed }
    {
        self.failed
    }

    /// The journal and the store.
    pub(crate) fn into_parts(self) -> (Journal, S)
        ensures journal { result.0 ≡ self.journal }
        ensures told { S.told result.1 ≡ self.store.told }
        ensures held { S.held result.1 ≡ self.store.held }
        ensures faults { S.faults result.1 ≡ self.store.faults }
        ensures sure { S.sure result.1 ≡ self.store.sure }
        ensures path { S.path result.1 ≡ self.store.path }
    {
        let Contents {
            number: _,
            partitions: _,
            table,
            waiting,
            store,
            marks,
            journal,
            book,
            arrived: _,
            failed: _,
        } = self;
        drop(table);
        drop(waiting);
        drop(marks);
        drop(book);
        (journal, store)
    }

    /// The bytes of a payload's rows, in one allocation.
    pub(crate) fn bytes_of(&self, payload: &SpillPayload) -> Result<WaitingRows, AllocError>
        requires { HaveInputs self.now.table.shape.input_types payload.now.rows }
        ensures typed { IfOk result (AreWaiting self.now.table.shape.input_types) }
        ensures rows { IfOk result
            (λ w. payload_read self.now.table.shape.input_types w ≡ payload.now) }
    {
        let alloc = *self.waiting.allocator();
        WaitingRows::of_rows(alloc, &payload.rows, self.table.input_types())
    }

    /// A worker's rows come to wait.
    pub(crate) fn arrive(
        &mut self,
        worker: usize,
        rows: WaitingRows,
    ) -> Result<(), (AllocError, WaitingRows)>
        requires exists { worker < length self.old.book }
        requires room { slice_index_or self.old.book worker 0 + 1 < 2 ^ 64 }
        requires typed { AreWaiting self.old.table.shape.input_types rows }
        requires few { self.old.arrived + rows.count < 2 ^ 64 }
        ensures ok { OnOk result (self.new ≡ with_payload self.old worker
            (payload_read self.old.table.shape.input_types rows)) }
        ensures err { OnErr result (self.new ≡ self.old) }
        ensures back { IfErr result (λ e. e.1 ≡ rows) }
    {
        let Contents {
            waiting,
            journal,
            book,
            arrived,
            ..
        } = self;
        let events = &mut journal.events;
        if events.reserve(1).is_err() || waiting.reserve(1).is_err() {
            return Err((AllocError, rows));
        }
        *arrived += rows.len() as u64;
        waiting.push_reserved(rows);
        events.push_reserved(PartitionEvent::Arrive { worker });
        book[worker] += 1;
        Ok(())
    }

    /// What waits is moved into the table, where there is room for all of it.
    pub(crate) fn merge(&mut self, alloc: Global, worker: usize) -> Result<(), AllocError>
        requires exists { worker < length self.old.book }
        requires room { slice_index_or self.old.book worker 0 + 1 < 2 ^ 64 }
        requires rows { CanMerge self.old.table (joined_rows self.old.waiting) }
        ensures ok { OnOk result (IsMerged self.old worker self.new) }
        ensures err { OnErr result (IsKeptBut self.old self.new self.old.failed) }
        ensures err_faults { OnErr result (HasNoFault self.old self.new) }
    {
        let Contents {
            table,
            waiting,
            journal,
            book,
            ..
        } = self;
        let events = &mut journal.events;
        events.reserve(1)?;
        take_waiting(alloc, table, waiting)?;
        events.push_reserved(PartitionEvent::Merge { worker });
        book[worker] += 1;
        Ok(())
    }

    /// What waits is put as one frame, where more payloads wait than the limit.
    pub(crate) fn dump(
        &mut self,
        alloc: Global,
        worker: usize,
        limit: usize,
    ) -> Result<(), DumpError>
        requires exists { worker < length self.old.book }
        requires room { slice_index_or self.old.book worker 0 + 1 < 2 ^ 64 }
        requires few { length (joined_rows self.old.waiting) < 2 ^ 32 }
        requires numbers { self.old.store.held < 2 ^ 64 - 1 }
        ensures ok { OnOk result (IsDumped limit self.old worker self.new) }
        ensures store { IfErr result (λ e. e ≡ dump_error.Store
            → IsKeptBut self.old self.new true
            × Rose self.old.store.faults self.new.store.faults) }
        ensures memory { IfErr result (λ e. e ≡ dump_error.Memory
            → IsKeptBut self.old self.new self.old.failed) }
        ensures memory_faults { IfErr result (λ e. e ≡ dump_error.Memory
            → HasNoFault self.old self.new) }
    {
        let Contents {
            table,
            waiting,
            store,
            marks,
            journal,
            book,
            failed,
            ..
        } = self;
        let events = &mut journal.events;
        if events.reserve(1).is_err() {
            return Err(DumpError::Memory);
        }
        match put_waiting(alloc, waiting, store, marks, table.input_types(), limit) {
            Ok(()) => {}
            Err(DumpError::Store) => {
                *failed = true;
                return Err(DumpError::Store);
            }
            Err(DumpError::Memory) => {
                return Err(DumpError::Memory);
            }
        }
        events.push_reserved(PartitionEvent::Dump { worker });
        book[worker] += 1;
        Ok(())
    }
}
