//! The frames of a log in an open file.

ghost use Rattle.std.specs.Prelude.{◌≡◌, ◌<◌, ◌≤◌, ◌+◌, ◌^◌, [], false, true, length, IfOk, IfSome, OnOk, OnErr, IsErrOf};
ghost use Rattle.pipe_columns.specs.Causes.{HasCause};
ghost use Rattle.pipe_spill.specs.FileStore.{next_start, with_end};
ghost use Rattle.pipe_spill.specs.declared.store.StoreError.TheVariants as store_error;
ghost use Rattle.summary_log.specs.Ends.{AreEndsIn, frame_size, frame_start};
ghost use Rattle.summary_log.specs.KeptFile.{faults_of, held_of, IsUndone};
ghost use Rattle.summary_log.specs.Log.{entry};
ghost use Rattle.summary_log.specs.LogFile.{bytes_at, HasFront, IsCutAt, IsWrittenAt};

use crate::entries::{end_behind, read_bytes, write_entry};
use crate::fault::store_error;
use crate::find_ends::{MOST_LOG_BYTES, find_log};
use crate::log_file::LogFile;
use crate::places::{end_of, place_of};
use pipe_spill::StoreError;
use std::alloc::Global;
use std::marker::Model;

/// Where each entry of a log ends in its file, and how often a call failed. The frames themselves lie in
/// the file alone.
#[derive(Debug, Drop)]
pub struct LogFrames {
    ends: Vec<u64>,
    faults: u64,
    torn: bool,
}

impl Model for LogFrames {
    ghost use Rattle.summary_log.specs.KeptFile.{LogEnds};

    ghost Value = { LogEnds };

    ghost view = { λ s. record { ends = s.ends.items; faults = s.faults; torn = s.torn } };
}

impl LogFrames {
    /// The frames of the log that a file begins with. What lies behind them, as an entry that was cut
    /// short, is cut off. Of each entry its length alone is read.
    pub fn find<F: LogFile>(alloc: Global, file: &mut F) -> Result<LogFrames, StoreError>
        ensures ends { IfOk result (λ s. IfSome (F.told file.old) (λ bytes. AreEndsIn bytes s.ends)) }
        ensures cut { IfOk result (λ s. IsCutAt (next_start s.ends) (F.told file.old)
            (F.told file.new)) }
        ensures small { IfOk result (λ s. IfSome (F.told file.old)
            (λ bytes. length bytes ≤ MOST_LOG_BYTES)) }
        ensures faults { IfOk result (λ s. s.faults ≡ 0) }
        ensures whole { IfOk result (λ s. s.torn ≡ false) }
        ensures refused { OnErr result (F.told file.new ≡ F.told file.old) }
    {
        match find_log(alloc, file) {
            Ok(ends) => Ok(LogFrames {
                ends,
                faults: 0,
                torn: false,
            }),
            Err(error) => Err(store_error(error)),
        }
    }

    /// How many frames there are.
    pub fn held(&self) -> u64
        ensures { result ≡ held_of self.now }
    {
        self.ends.len() as u64
    }

    /// Writes the entry of a frame behind the last one, and waits until it is kept. What a refused write
    /// left there is cut off before that is answered; where this is refused too, so is every later put.
    pub fn put<F: LogFile>(&mut self, file: &mut F, frame: &[u8]) -> Result<u64, StoreError>
        ensures number { IfOk result (λ n. n ≡ held_of self.old) }
        ensures ends { OnOk result (self.new.ends
            ≡ with_end self.old.ends (length (entry frame.now))) }
        ensures written { OnOk result (IsWrittenAt (next_start self.old.ends) (entry frame.now)
            (F.told file.old) (F.told file.new)) }
        ensures whole { OnOk result (self.new.torn ≡ false) }
        ensures refused { OnErr result (self.new.ends ≡ self.old.ends) }
        ensures front { OnErr result (HasFront (next_start self.old.ends) (F.told file.old)
            (F.told file.new)) }
        ensures undone { OnErr result (IsUndone self.old self.new (F.told file.old)
            (F.told file.new)) }
        ensures large { MOST_LOG_BYTES < next_start self.old.ends + length (entry frame.now)
            → IsErrOf result store_error.Failed × (file.new ≡ file.old) }
        ensures torn { self.old.torn ≡ true
            → IsErrOf result store_error.Failed × (file.new ≡ file.old) × (self.new.torn ≡ true) }
        ensures cause { HasCause (faults_of self.old) (faults_of self.new)
            (IsErrOf result store_error.Failed) }
        ensures calm { (IsErrOf result store_error.Failed → ⊥)
            → faults_of self.new ≡ faults_of self.old }
    {
        let number = self.held();
        let start = end_of(&self.ends);
        let Some(end) = end_behind(start, frame.len() as u64, self.torn) else {
            return Err(self.refuse(StoreError::Failed));
        };
        if self.ends.reserve(1).is_err() {
            return Err(StoreError::Memory);
        }
        if let Err(error) = write_entry(file, start, frame) {
            self.torn = file.cut_at(start).is_err();
            return Err(self.refuse(store_error(error)));
        }
        self.ends.push_reserved(end);
        Ok(number)
    }

    /// Reads the frame of a number, and leaves it in `into`, and nothing else.
    pub fn get<F: LogFile>(
        &mut self,
        file: &mut F,
        number: u64,
        into: &mut Vec<u8>,
    ) -> Result<(), StoreError>
        requires held { number < held_of self.old }
        ensures size { OnOk result (length into.new.items ≡ frame_size self.old.ends number) }
        ensures frame { OnOk result (IfSome (F.told file.old) (λ bytes. into.new.items
            ≡ bytes_at (frame_start self.old.ends number) (frame_size self.old.ends number) bytes)) }
        ensures refused { OnErr result (into.new.items ≡ []) }
        ensures ends { self.new.ends ≡ self.old.ends }
        ensures torn { self.new.torn ≡ self.old.torn }
        ensures told { F.told file.new ≡ F.told file.old }
        ensures cause { HasCause (faults_of self.old) (faults_of self.new)
            (IsErrOf result store_error.Failed) }
        ensures calm { (IsErrOf result store_error.Failed → ⊥)
            → faults_of self.new ≡ faults_of self.old }
    {
        let Some((start, size)) = place_of(&self.ends, number as usize) else {
            into.clear();
            return Err(self.refuse(StoreError::Failed));
        };
        match read_bytes(file, start, size, into) {
            Ok(()) => Ok(()),
            Err(error) => Err(self.refuse(store_error(error))),
        }
    }

    /// Counts a refusal, unless memory ran out.
    fn refuse(&mut self, error: StoreError) -> StoreError
        ensures error { result ≡ error }
        ensures ends { self.new.ends ≡ self.old.ends }
        ensures torn { self.new.torn ≡ self.old.torn }
        ensures cause { HasCause (faults_of self.old) (faults_of self.new)
            (result ≡ store_error.Failed) }
        ensures calm { (result ≡ store_error.Failed → ⊥) → faults_of self.new ≡ faults_of self.old }
    {
        if error == StoreError::Failed {
            self.faults = self.faults.saturating_add(1);
        }
        error
    }
}
