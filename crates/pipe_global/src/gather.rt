//! A closed partition gathers its rows into its table.

ghost use Rattle.std.specs.Prelude.{◌≡◌, ◌<◌, ◌+◌, [], IfErr, IfOk, OnErr, OnOk, length};
ghost use Rattle.pipe_spill.specs.SpillRow.{joined_rows};
ghost use Rattle.pipe_spill.specs.Store.{IsFrameAt};
ghost use Rattle.pipe_waiting.specs.Waiting.{HoldRows, left_rows};
ghost use Rattle.pipe_global.specs.Finishing.{CanGather, HasNoFault, IsCause};
ghost use Rattle.pipe_global.specs.Gathering.{CanRead, HasAsked, HasGathered, HasRead, HasTakenFrame, HasTakenWaiting, IsLast};
ghost use Rattle.pipe_global.specs.Moving.{CanMerge};
ghost use Rattle.pipe_global.specs.Refused.{IsKeptBut};

use crate::batch_error::BatchError;
use crate::contents::Contents;
use crate::mark::Mark;
use crate::take::{take_lent, take_waiting};
use pipe_spill::{FrameError, SpillStore, StoreError};
use pipe_waiting::{LentRows, OwnPartition, lend_frame};
use std::alloc::{AllocError, Global};

impl<S: SpillStore + Drop> Contents<S> {
    /// Gets the bytes of the frame at a mark into a buffer.
    fn get_marked(&mut self, mark: Mark, buffer: &mut Vec<u8>) -> Result<(), BatchError>
        requires { CanRead self.old mark }
        ensures asked { HasAsked self.old self.new }
        ensures frame { OnOk result
            (IsFrameAt self.old.store.told mark.number buffer.new.items) }
        ensures calm { OnOk result (HasNoFault self.old self.new) }
        ensures cause { IfErr result (λ e. IsCause self.old self.new e) }
    {
        match self.store.get(mark.number, buffer) {
            Ok(()) => Ok(()),
            Err(StoreError::Failed) => Err(BatchError::Store {
                partition: self.number,
            }),
            Err(StoreError::Memory) => Err(BatchError::Memory),
        }
    }

    /// The rows of the frame at a mark, lent, as they were put. All is tested before the first is given.
    fn lend_marked<'a>(
        &self,
        alloc: Global,
        mark: Mark,
        bytes: &'a [u8],
    ) -> Result<LentRows<'a>, BatchError>
        requires can { CanRead self.now mark }
        requires frame { IsFrameAt self.now.store.told mark.number bytes.now }
        ensures held { IfOk result
            (λ a. HoldRows self.now.table.shape.input_types a.count a.bytes) }
        ensures rows { IfOk result
            (λ a. HasRead self.now mark (left_rows self.now.table.shape.input_types a)) }
        ensures cause { IfErr result (λ e. IsCause self.now self.now e) }
    {
        let own = OwnPartition {
            number: self.number,
            partitions: self.partitions,
        };
        let (keys, inputs) = (self.table.key_types(), self.table.input_types());
        match lend_frame(alloc, bytes, keys, inputs, own, mark.rows) {
            Ok(rows) => Ok(rows),
            Err(FrameError::NotAFrame) => Err(BatchError::Damaged {
                partition: self.number,
                number: mark.number,
            }),
            Err(FrameError::Memory) => Err(BatchError::Memory),
        }
    }

    /// The last mark.
    fn last_mark(&self) -> Mark
        requires { 0 < length self.now.marks }
        ensures { IsLast self.now.marks result }
    {
        self.marks[self.marks.len() - 1]
    }

    /// The rows of the last mark's frame are moved into the table, and the mark is taken away.
    fn take_frame(
        &mut self,
        alloc: Global,
        mark: Mark,
        rows: LentRows<'_>,
    ) -> Result<(), AllocError>
        requires last { IsLast self.old.marks mark }
        requires held { HoldRows self.old.table.shape.input_types rows.count rows.bytes }
        requires rows { CanMerge self.old.table
            (left_rows self.old.table.shape.input_types rows) }
        ensures ok { OnOk result (HasTakenFrame self.old mark
            (left_rows self.old.table.shape.input_types rows.entry) self.new) }
        ensures err { OnErr result (IsKeptBut self.old self.new self.old.failed) }
        ensures calm { HasNoFault self.old self.new }
    {
        let Contents { table, marks, .. } = self;
        take_lent(alloc, table, rows)?;
        marks.pop();
        Ok(())
    }

    /// The frame of the last mark is merged, whole or not at all.
    fn merge_last(&mut self, alloc: Global, buffer: &mut Vec<u8>) -> Result<(), BatchError>
        requires some { 0 < length self.old.marks }
        requires can { CanGather self.old 0 }
        ensures gathered { HasGathered self.old self.new }
        ensures waiting { self.new.waiting ≡ self.old.waiting }
        ensures marks { OnOk result (length self.new.marks + 1 ≡ length self.old.marks) }
        ensures calm { OnOk result (HasNoFault self.old self.new) }
        ensures cause { IfErr result (λ e. IsCause self.old self.new e) }
    {
        let mark = self.last_mark();
        self.get_marked(mark, buffer)?;
        let rows = self.lend_marked(alloc, mark, buffer)?;
        self.take_frame(alloc, mark, rows)?;
        Ok(())
    }

    /// All frames are merged, the last one first.
    fn merge_frames(&mut self, alloc: Global) -> Result<(), BatchError>
        requires { CanGather self.old 0 }
        ensures gathered { HasGathered self.old self.new }
        ensures waiting { self.new.waiting ≡ self.old.waiting }
        ensures marks { OnOk result (self.new.marks ≡ []) }
        ensures calm { OnOk result (HasNoFault self.old self.new) }
        ensures cause { IfErr result (λ e. IsCause self.old self.new e) }
    {
        let mut buffer = Vec::new(alloc);
        for _turn in 0..self.marks.len() {
            match self.merge_last(alloc, &mut buffer) {
                Ok(()) => {}
                Err(error) => return Err(error),
            }
        }
        Ok(())
    }

    /// What waits is merged, where there is room for all of it.
    fn merge_waiting(&mut self, alloc: Global) -> Result<(), AllocError>
        requires { CanMerge self.old.table (joined_rows self.old.waiting) }
        ensures ok { OnOk result (HasTakenWaiting self.old self.new) }
        ensures err { OnErr result (IsKeptBut self.old self.new self.old.failed) }
        ensures calm { HasNoFault self.old self.new }
    {
        let Contents { table, waiting, .. } = self;
        take_waiting(alloc, table, waiting)
    }

    /// All that was put away is in the table, or a part of it.
    pub(crate) fn gather(&mut self, alloc: Global) -> Result<(), BatchError>
        requires { CanGather self.old 0 }
        ensures gathered { HasGathered self.old self.new }
        ensures none { OnOk result ((self.new.waiting ≡ []) × (self.new.marks ≡ [])) }
        ensures calm { OnOk result (HasNoFault self.old self.new) }
        ensures cause { IfErr result (λ e. IsCause self.old self.new e) }
    {
        self.merge_frames(alloc)?;
        self.merge_waiting(alloc)?;
        Ok(())
    }
}
