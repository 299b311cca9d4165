//! The real files, and standard input as `-`.

ghost use Rattle.std.specs.Prelude.{◌≡◌, [], false};

use crate::input::{InputError, InputFiles};
use crate::parts::read_in_parts;
use crate::tried::TriedNames;
use pipe_columns::Text;
use std::fs::{self, File, Files};
use std::io::{ErrorKind, Read};
use std::marker::Model;
use std::thread::Threads;

/// The files of a runtime, and a reader for the name `-`. It tells none of their bytes. Contracts
/// see whether one is begun, the count of faults, and the names that were tried.
#[derive(Drop)]
pub struct RealFiles<'a, R: Files<File = File>, S> {
    rt: &'a R,
    stdin: S,
    reads_stdin: bool,
    file: Option<File>,
    faults: u64,
    tried: TriedNames,
}

impl<'a, R: Files<File = File>, S> Model for RealFiles<'a, R, S> {
    ghost use Rattle.std.specs.Prelude.{is_some, ◌||◌};
    ghost use Rattle.pipe_io.specs.RealFiles.{SystemFiles};

    ghost Value = { SystemFiles };

    ghost view = { λ s. record {
      begun = s.reads_stdin || is_some s.file;
      faults = s.faults;
      tried = s.tried;
    } };
}

impl<'a, R: Files<File = File>, S: Read + Drop> RealFiles<'a, R, S> {
    /// Nothing is begun. `stdin` is read where `-` is begun, each time from where it stands.
    pub fn new(rt: &'a R, stdin: S) -> RealFiles<'a, R, S>
        ensures idle { result.begun ≡ false }
        ensures no_fault { result.faults ≡ 0 }
        ensures untried { result.tried ≡ [] }
    {
        RealFiles {
            rt,
            stdin,
            reads_stdin: false,
            file: None,
            faults: 0,
            tried: TriedNames::none(),
        }
    }
}

impl<'a, R: Files<File = File>, S: Read + Drop> InputFiles for RealFiles<'a, R, S> {
    ghost use Rattle.std.specs.Prelude.{None};
    ghost use Rattle.pipe_io.specs.RealFiles.{begun_of, held_faults, tried_of};

    ghost told = { λ s. None };

    ghost left = { λ s. None };

    ghost begun = { begun_of };

    ghost faults = { held_faults };

    ghost tried = { tried_of };

    fn begin(&mut self, name: &Text) -> Result<(), InputError> {
        self.file = None;
        self.reads_stdin = false;
        self.tried.add(name);
        if name.as_str() == "-" {
            self.reads_stdin = true;
            return Ok(());
        }
        match fs::open(self.rt, name.as_str()) {
            Ok(file) => {
                self.file = Some(file);
                Ok(())
            }
            Err(error) => match error.kind() {
                ErrorKind::NotFound => Err(InputError::NoFile),
                ErrorKind::OutOfMemory => Err(InputError::Memory),
                _ => {
                    self.faults = self.faults.saturating_add(1);
                    Err(InputError::Failed)
                }
            },
        }
    }

    fn size_hint(&self) -> usize {
        match &self.file {
            Some(file) => match file.metadata() {
                Ok(facts) => usize::try_from(facts.len()).unwrap_or(0),
                Err(_) => 0,
            },
            None => 0,
        }
    }

    fn read(&mut self, into: &mut [u8]) -> Result<usize, InputError> {
        let given = match &mut self.file {
            Some(file) => file.read(into),
            None => self.stdin.read(into),
        };
        match given {
            Ok(count) => Ok(count),
            Err(error) => match error.kind() {
                ErrorKind::OutOfMemory => Err(InputError::Memory),
                _ => {
                    self.faults = self.faults.saturating_add(1);
                    Err(InputError::Failed)
                }
            },
        }
    }

    fn read_beside<H: Threads + Sync>(
        &mut self,
        rt: &H,
        threads: usize,
        into: &mut [u8],
    ) -> Result<usize, InputError> {
        if let Some(file) = &mut self.file {
            if let Some(count) = read_in_parts(rt, file, threads, into) {
                return Ok(count);
            }
        }
        self.read(into)
    }
}
