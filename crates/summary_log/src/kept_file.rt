//! A store whose frames are a log in a file.

ghost use Rattle.std.specs.Prelude.{◌≡◌, ◌<◌, ◌+◌, ◌-◌, ◌^◌, [], false, true, length, IfOk, OnOk, OnErr, IsErrOf};
ghost use Rattle.pipe_columns.specs.Causes.{HasCause};
ghost use Rattle.pipe_spill.specs.FileStore.{with_end};
ghost use Rattle.pipe_spill.specs.declared.store.StoreError.TheVariants as store_error;
ghost use Rattle.summary_log.specs.Ends.{frame_size};
ghost use Rattle.summary_log.specs.KeptFile.{faults_of, held_of};
ghost use Rattle.summary_log.specs.Log.{entry};

use crate::fault::store_error;
use crate::log_frames::LogFrames;
use pipe_columns::Text;
use pipe_spill::{SpillStore, StoreError};
use std::alloc::Global;
use std::fs::{File, Files, OpenOptions};
use std::io;
use std::marker::Model;

/// A log in a file of the system, which this store alone has open: it holds the file's lock. It tells
/// none of its frames; contracts see its path and where each entry ends.
#[derive(Drop)]
pub struct KeptFile {
    file: File,
    path: String,
    frames: LogFrames,
}

impl Model for KeptFile {
    ghost use Rattle.std.specs.Prelude.{string_bytes};
    ghost use Rattle.summary_log.specs.KeptFile.{KeptSeen};

    ghost Value = { KeptSeen };

    ghost view = { λ s. record { path = string_bytes s.path; frames = s.frames } };
}

/// Opens a file to read and write, which is made where it isn't there, and takes its lock.
fn open_alone<R: Files<File = File>>(rt: &R, path: &str) -> io::Result<File> {
    let mut options = OpenOptions::new();
    options.read(true).write(true).create(true).truncate(false);
    let file = options.open(rt, path)?;
    file.try_lock()?;
    Ok(file)
}

impl KeptFile {
    /// The log in the file of a path, which is made where it isn't there. What lies behind the whole
    /// entries is cut off. A file that is no log of at most 2^30 bytes, can't be opened, or is open in
    /// another store, fails.
    pub fn open<R: Files<File = File>>(
        rt: &R,
        alloc: Global,
        path: &Text,
    ) -> Result<KeptFile, StoreError>
        ensures path { IfOk result (λ s. s.path ≡ path.now) }
        ensures faults { IfOk result (λ s. s.frames.faults ≡ 0) }
        ensures whole { IfOk result (λ s. s.frames.torn ≡ false) }
    {
        let Ok(path_held) = String::from_str(alloc, path.as_str()) else {
            return Err(StoreError::Memory);
        };
        match open_alone(rt, path.as_str()) {
            Ok(mut file) => {
                let frames = LogFrames::find(alloc, &mut file)?;
                Ok(KeptFile {
                    file,
                    path: path_held,
                    frames,
                })
            }
            Err(error) => Err(store_error(error)),
        }
    }
}

impl SpillStore for KeptFile {
    ghost use Rattle.std.specs.Prelude.{None, Some, false};
    ghost use Rattle.summary_log.specs.KeptFile.{faults_of, held_of, sure_never_failed};

    ghost told = { λ s. None };

    ghost held = { λ s. held_of s.frames };

    ghost faults = { λ s. faults_of s.frames };

    ghost sure = { λ s. false };

    ghost path = { λ s. Some s.path };

    ghost tells_all = { λ s. tt };

    ghost never_failed = { sure_never_failed };

    fn held(&self) -> u64
        ensures { result ≡ held_of self.now.frames }
    {
        self.frames.held()
    }

    fn put(&mut self, frame: &[u8]) -> Result<u64, StoreError>
        requires room { held_of self.old.frames < 2 ^ 64 - 1 }
        ensures number { IfOk result (λ n. n ≡ held_of self.old.frames) }
        ensures held { OnOk result (held_of self.new.frames ≡ held_of self.old.frames + 1) }
        ensures refused_held { OnErr result (held_of self.new.frames ≡ held_of self.old.frames) }
        ensures cause { HasCause (faults_of self.old.frames) (faults_of self.new.frames)
            (IsErrOf result store_error.Failed) }
        ensures calm { (IsErrOf result store_error.Failed → ⊥)
            → faults_of self.new.frames ≡ faults_of self.old.frames }
        ensures ends { OnOk result (self.new.frames.ends
            ≡ with_end self.old.frames.ends (length (entry frame.now))) }
        ensures whole { OnOk result (self.new.frames.torn ≡ false) }
        ensures refused_ends { OnErr result (self.new.frames.ends ≡ self.old.frames.ends) }
        ensures torn { self.old.frames.torn ≡ true
            → IsErrOf result store_error.Failed × (self.new.frames.torn ≡ true) }
        ensures path { self.new.path ≡ self.old.path }
    {
        self.frames.put(&mut self.file, frame)
    }

    fn get(&mut self, number: u64, into: &mut Vec<u8>) -> Result<(), StoreError>
        requires held { number < held_of self.old.frames }
        ensures refused { OnErr result (into.new.items ≡ []) }
        ensures held { held_of self.new.frames ≡ held_of self.old.frames }
        ensures cause { HasCause (faults_of self.old.frames) (faults_of self.new.frames)
            (IsErrOf result store_error.Failed) }
        ensures calm { (IsErrOf result store_error.Failed → ⊥)
            → faults_of self.new.frames ≡ faults_of self.old.frames }
        ensures size { OnOk result (length into.new.items ≡ frame_size self.old.frames.ends number) }
        ensures ends { self.new.frames.ends ≡ self.old.frames.ends }
        ensures torn { self.new.frames.torn ≡ self.old.frames.torn }
        ensures path { self.new.path ≡ self.old.path }
    {
        self.frames.get(&mut self.file, number, into)
    }
}
