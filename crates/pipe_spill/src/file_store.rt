//! A store in a file, which is opened by name at each call.

ghost use Rattle.std.specs.Prelude.{◌≡◌, ◌<◌, ◌+◌, ◌-◌, ◌^◌, [], length, string_bytes, IfOk, OnOk, OnErr, IsErrOf};
ghost use Rattle.pipe_columns.specs.Causes.{HasCause};
ghost use Rattle.pipe_spill.specs.FileStore.{faults_of, held_of, path_in, size_of, with_end};
ghost use Rattle.pipe_spill.specs.declared.store.StoreError.TheVariants as store_error;

use crate::file_frames::FileFrames;
use crate::store::{SpillStore, StoreError};
use pipe_columns::Text;
use std::alloc::{AllocError, Global};
use std::fs::{self, Files, OpenOptions};
use std::io;
use std::marker::Model;

/// Frames in a file of a folder. The file is open during a call alone, since thousands of open
/// files pass a usual limit. It tells none of its frames; contracts see its
/// path and where each frame ends.
#[derive(Drop)]
pub struct FileStore<R> {
    rt: R,
    path: String,
    frames: FileFrames,
}

impl<R> Model for FileStore<R> {
    ghost use Rattle.std.specs.Prelude.{string_bytes};
    ghost use Rattle.pipe_spill.specs.FileStore.{FileStoreSeen};

    ghost Value = { FileStoreSeen };

    ghost view = { λ s. record { path = string_bytes s.path; frames = s.frames } };
}

impl<R: Files + Drop> FileStore<R> {
    /// The store of a partition in a folder. No file is touched yet; a folder that isn't there, as
    /// one without a name, fails the first put.
    pub fn new(rt: R, alloc: Global, dir: &Text, partition: usize) -> Result<Self, AllocError>
        ensures path { IfOk result (λ s. s.path ≡ path_in dir.now partition) }
        ensures ends { IfOk result (λ s. s.frames.ends ≡ []) }
        ensures faults { IfOk result (λ s. s.frames.faults ≡ 0) }
    {
        Ok(FileStore {
            rt,
            path: path_in(alloc, dir.as_str(), partition)?,
            frames: FileFrames::new(alloc),
        })
    }
}

impl<R: Files + Drop> SpillStore for FileStore<R> {
    ghost use Rattle.std.specs.Prelude.{None, Some, false};
    ghost use Rattle.pipe_spill.specs.FileStore.{faults_of, held_of, sure_never_failed};

    ghost told = { λ s. None };

    ghost held = { λ s. held_of s.frames };

    ghost faults = { λ s. faults_of s.frames };

    ghost sure = { λ s. false };

    ghost path = { λ s. Some s.path };

    ghost tells_all = { λ s. tt };

    ghost never_failed = { sure_never_failed };

    fn held(&self) -> u64
        ensures { result ≡ held_of self.now.frames }
    {
        self.frames.held()
    }

    fn put(&mut self, frame: &[u8]) -> Result<u64, StoreError>
        requires room { held_of self.old.frames < 2 ^ 64 - 1 }
        ensures number { IfOk result (λ n. n ≡ held_of self.old.frames) }
        ensures held { OnOk result (held_of self.new.frames ≡ held_of self.old.frames + 1) }
        ensures refused_held { OnErr result (held_of self.new.frames ≡ held_of self.old.frames) }
        ensures cause { HasCause (faults_of self.old.frames) (faults_of self.new.frames)
            (IsErrOf result store_error.Failed) }
        ensures calm { (IsErrOf result store_error.Failed → ⊥)
            → faults_of self.new.frames ≡ faults_of self.old.frames }
        ensures ends { OnOk result (self.new.frames.ends ≡ with_end self.old.frames.ends (length frame.now)) }
        ensures refused_ends { OnErr result (self.new.frames.ends ≡ self.old.frames.ends) }
        ensures path { self.new.path ≡ self.old.path }
    {
        let opened = open_to_put(&self.rt, self.path.as_str(), self.frames.held() == 0);
        match opened {
            Ok(mut file) => self.frames.put(&mut file, frame),
            Err(error) => Err(self.frames.refusal(error.kind())),
        }
    }

    fn get(&mut self, number: u64, into: &mut Vec<u8>) -> Result<(), StoreError>
        requires held { number < held_of self.old.frames }
        ensures refused { OnErr result (into.new.items ≡ []) }
        ensures held { held_of self.new.frames ≡ held_of self.old.frames }
        ensures cause { HasCause (faults_of self.old.frames) (faults_of self.new.frames)
            (IsErrOf result store_error.Failed) }
        ensures calm { (IsErrOf result store_error.Failed → ⊥)
            → faults_of self.new.frames ≡ faults_of self.old.frames }
        ensures size { OnOk result (length into.new.items ≡ size_of self.old.frames.ends number) }
        ensures ends { self.new.frames.ends ≡ self.old.frames.ends }
        ensures path { self.new.path ≡ self.old.path }
    {
        into.clear();
        match fs::open(&self.rt, self.path.as_str()) {
            Ok(mut file) => self.frames.get(&mut file, number, into),
            Err(error) => Err(self.frames.refusal(error.kind())),
        }
    }
}

/// The path of a partition's file. That of a folder without a name names nothing.
fn path_in(alloc: Global, dir: &str, partition: usize) -> Result<String, AllocError>
    ensures { IfOk result (λ path. string_bytes path ≡ path_in dir.now partition) }
{
    if dir.is_empty() {
        return Ok(String::new(alloc));
    }
    format!(in alloc; "{dir}/partition-{partition}.spill")
}

/// Opens the file of a path to write, which the first put makes or empties.
fn open_to_put<R: Files>(rt: &R, path: &str, first: bool) -> io::Result<R::File> {
    let mut options = OpenOptions::new();
    options.write(true).create(first).truncate(first);
    options.open(rt, path)
}
