//! Frames one after another in an open file.

ghost use Rattle.std.specs.Prelude.{◌≡◌, ◌<◌, ◌≤◌, [], length, IfOk, OnOk, OnErr, IsErrOf};
ghost use Rattle.pipe_columns.specs.Causes.{HasCause};
ghost use Rattle.pipe_spill.specs.FileFrames.{ReadAt, WroteAt};
ghost use Rattle.pipe_spill.specs.FileStore.{faults_of, held_of, next_start, size_of, start_of, with_end};
ghost use Rattle.pipe_spill.specs.declared.store.StoreError.TheVariants as store_error;

use crate::store::StoreError;
use std::alloc::Global;
use std::io::{self, ErrorKind, Read, Seek, SeekFrom, Write};
use std::marker::Model;

/// Where each frame ends in a file, and how often a call failed.
#[derive(Debug, Drop)]
pub struct FileFrames {
    ends: Vec<u64>,
    faults: u64,
}

impl Model for FileFrames {
    ghost use Rattle.pipe_spill.specs.FileStore.{FileEnds};

    ghost Value = { FileEnds };

    ghost view = { λ s. record { ends = s.ends.items; faults = s.faults } };
}

impl FileFrames {
    /// There is no frame yet.
    pub fn new(alloc: Global) -> FileFrames
        ensures ends { result.ends ≡ [] }
        ensures faults { result.faults ≡ 0 }
    {
        FileFrames {
            ends: Vec::new(alloc),
            faults: 0,
        }
    }

    /// How many frames there are.
    pub fn held(&self) -> u64
        ensures { result ≡ held_of self.now }
    {
        self.ends.len() as u64
    }

    /// Writes a frame behind the last one. A refused put may leave bytes there, which the next one
    /// writes over.
    pub fn put<F: Write + Seek>(&mut self, file: &mut F, frame: &[u8]) -> Result<u64, StoreError>
        ensures number { IfOk result (λ n. n ≡ held_of self.old) }
        ensures ends { OnOk result (self.new.ends ≡ with_end self.old.ends (length frame.now)) }
        ensures written { OnOk result (WroteAt F.stream_position F.stream_bytes F.contents
            (next_start self.old.ends) frame.now file.old file.new) }
        ensures refused { OnErr result (self.new.ends ≡ self.old.ends) }
        ensures cause { HasCause (faults_of self.old) (faults_of self.new)
            (IsErrOf result store_error.Failed) }
        ensures calm { (IsErrOf result store_error.Failed → ⊥)
            → faults_of self.new ≡ faults_of self.old }
    {
        if self.ends.reserve(1).is_err() {
            return Err(StoreError::Memory);
        }
        let number = self.ends.len() as u64;
        let start = start_of(&self.ends, self.ends.len());
        let Some(end) = start.checked_add(frame.len() as u64) else {
            return Err(self.refusal(ErrorKind::FileTooLarge));
        };
        if let Err(error) = write_at(file, start, frame) {
            return Err(self.refusal(error.kind()));
        }
        match self.ends.push(end) {
            Ok(()) => Ok(number),
            Err(_) => Err(StoreError::Memory),
        }
    }

    /// Reads the frame of a number.
    pub fn get<F: Read + Seek>(
        &mut self,
        file: &mut F,
        number: u64,
        into: &mut Vec<u8>,
    ) -> Result<(), StoreError>
        requires held { number < held_of self.old }
        ensures size { OnOk result (length into.new.items ≡ size_of self.old.ends number) }
        ensures read { OnOk result (ReadAt F.stream_position F.stream_bytes F.remaining
            (start_of self.old.ends number) into.new.items file.old file.new) }
        ensures refused { OnErr result (into.new.items ≡ []) }
        ensures ends { self.new.ends ≡ self.old.ends }
        ensures cause { HasCause (faults_of self.old) (faults_of self.new)
            (IsErrOf result store_error.Failed) }
        ensures calm { (IsErrOf result store_error.Failed → ⊥)
            → faults_of self.new ≡ faults_of self.old }
    {
        let start = start_of(&self.ends, number as usize);
        let size = self.ends[number as usize].saturating_sub(start);
        match read_at(file, start, size as usize, into) {
            Ok(()) => Ok(()),
            Err(error) => Err(self.refusal(error.kind())),
        }
    }

    /// What a fault of a file makes. It is counted, unless memory ran out.
    pub fn refusal(&mut self, kind: ErrorKind) -> StoreError
        ensures ends { self.new.ends ≡ self.old.ends }
        ensures cause { HasCause (faults_of self.old) (faults_of self.new)
            (result ≡ store_error.Failed) }
        ensures calm { (result ≡ store_error.Failed → ⊥) → faults_of self.new ≡ faults_of self.old }
    {
        if kind == ErrorKind::OutOfMemory {
            return StoreError::Memory;
        }
        self.faults = self.faults.saturating_add(1);
        StoreError::Failed
    }
}

/// Where the frame of a number starts.
fn start_of(ends: &[u64], number: usize) -> u64
    requires { number ≤ length ends.now }
    ensures { result ≡ start_of ends.now number }
{
    if number == 0 {
        return 0;
    }
    ends[number - 1]
}

/// Writes all the bytes at a place.
fn write_at<F: Write + Seek>(file: &mut F, at: u64, bytes: &[u8]) -> io::Result<()>
    ensures { OnOk result (WroteAt F.stream_position F.stream_bytes F.contents at bytes.now
        file.old file.new) }
{
    file.seek(SeekFrom::Start(at))?;
    file.write_all(bytes)?;
    file.flush()
}

/// Leaves so many bytes from a place on in `into`, or none.
fn read_at<F: Read + Seek>(
    file: &mut F,
    at: u64,
    count: usize,
    into: &mut Vec<u8>,
) -> io::Result<()>
    ensures count { OnOk result (length into.new.items ≡ count) }
    ensures read { OnOk result (ReadAt F.stream_position F.stream_bytes F.remaining at
        into.new.items file.old file.new) }
    ensures refused { OnErr result (into.new.items ≡ []) }
{
    into.clear();
    file.seek(SeekFrom::Start(at))?;
    into.resize(count, 0)?;
    match file.read_exact(into) {
        Ok(()) => Ok(()),
        Err(error) => {
            into.clear();
            Err(error)
        }
    }
}
