//! Files in memory, which fail at listed calls.

ghost use Rattle.std.specs.Prelude.{◌≡◌, ◌++◌, ◌∷◌, ◌-◌, min, take, drop, ◌<◌, IfSome, IfNone, length, None, Some, List, ℕ, ◌↔◌, OnOk, OnErr, IsErrOf, IsTrue, true, false, []};
ghost use Rattle.std.specs.Io.{ReadsAtMost};
ghost use Rattle.std.specs.Io.KnownBytes.{ReadConsumes};
ghost use Rattle.pipe_columns.specs.Calls.{after_call, is_listed, no_calls};
ghost use Rattle.pipe_columns.specs.Causes.{HasCause};
ghost use Rattle.pipe_io.specs.FilePlace.{file_rest};
ghost use Rattle.pipe_io.specs.Files.{HasNoFile, IsRead, file_of};
ghost use Rattle.pipe_io.specs.MemoryFiles.{begun_of, entries, held_faults, held_rest, held_files, tried_of};
ghost use Rattle.pipe_io.specs.declared.input.InputError.TheVariants as input_error;

use crate::input::{InputError, InputFiles};
use crate::tried::TriedNames;
use pipe_columns::{FailingCalls, Text};
use std::marker::Model;

/// Named bytes, of which one file at a time is read. Contracts see the files, what is left of the
/// begun one, the calls, and the names that were tried.
#[derive(Drop)]
pub struct MemoryFiles {
    files: Vec<(Text, Vec<u8>)>,
    calls: FailingCalls,
    current: Option<usize>,
    at: usize,
    tried: TriedNames,
}

impl Model for MemoryFiles {
    ghost use Rattle.std.specs.Prelude.{option_and_then};
    ghost use Rattle.pipe_io.specs.FilePlace.{file_rest};
    ghost use Rattle.pipe_io.specs.MemoryFiles.{HeldFiles, entries};

    ghost Value = { HeldFiles };

    ghost view = { λ s. record {
      files = entries s.files.items;
      left = option_and_then (file_rest s.files.items s.at) s.current;
      calls = s.calls;
      tried = s.tried;
    } };
}

impl MemoryFiles {
    /// The calls of `begin` and `read` are numbered together from 0, and those listed fail.
    pub fn new(files: Vec<(Text, Vec<u8>)>, failing: Vec<u64>) -> MemoryFiles
        ensures files { result.files ≡ entries files.items }
        ensures idle { result.left ≡ None }
        ensures calls { result.calls ≡ no_calls failing.items }
        ensures untried { result.tried ≡ [] }
    {
        MemoryFiles {
            files,
            calls: FailingCalls::new(failing),
            current: None,
            at: 0,
            tried: TriedNames::none(),
        }
    }
}

impl InputFiles for MemoryFiles {
    ghost told = { held_files };

    ghost left = { held_rest };

    ghost begun = { begun_of };

    ghost faults = { held_faults };

    ghost tried = { tried_of };

    fn begin(&mut self, name: &Text) -> Result<(), InputError>
        ensures told { held_files self.new ≡ held_files self.old }
        ensures started { OnOk result (begun_of self.new ≡ true) }
        ensures at_start { OnOk result (IsRead (held_files self.old) name.now (held_rest self.new) []) }
        ensures missing { IsErrOf result input_error.NoFile → HasNoFile (held_files self.old) name.now }
        ensures no_fault { IsErrOf result input_error.NoFile
            → held_faults self.new ≡ held_faults self.old }
        ensures refused { OnErr result (begun_of self.new ≡ false) }
        ensures tried { tried_of self.new ≡ tried_of self.old ++ name.now ∷ [] }
        ensures cause { HasCause (held_faults self.old) (held_faults self.new)
            (IsErrOf result input_error.Failed) }
        ensures fails_exactly { IsErrOf result input_error.Failed
            ↔ IsTrue (is_listed self.old.calls) }
        ensures no_memory { IsErrOf result input_error.Memory → ⊥ }
        ensures calls { self.new.calls ≡ after_call self.old.calls }
    {
        self.current = None;
        self.tried.add(name);
        if self.calls.count() {
            return Err(InputError::Failed);
        }
        match place_of(&self.files, name.as_bytes()) {
            Some(place) => {
                self.current = Some(place);
                self.at = 0;
                Ok(())
            }
            None => Err(InputError::NoFile),
        }
    }

    fn read(&mut self, into: &mut [u8]) -> Result<usize, InputError>
        requires started { begun_of self.old ≡ true }
        requires room { 0 < length into.old }
        ensures told { held_files self.new ≡ held_files self.old }
        ensures begun { begun_of self.new ≡ true }
        ensures bound { ReadsAtMost result into.new }
        ensures bytes { ReadConsumes (held_rest self.old) (held_rest self.new) result into.new }
        ensures found { IsErrOf result input_error.NoFile → ⊥ }
        ensures tried { tried_of self.new ≡ tried_of self.old }
        ensures cause { HasCause (held_faults self.old) (held_faults self.new)
            (IsErrOf result input_error.Failed) }
        ensures fails_exactly { IsErrOf result input_error.Failed
            ↔ IsTrue (is_listed self.old.calls) }
        ensures no_memory { IsErrOf result input_error.Memory → ⊥ }
        ensures calls { self.new.calls ≡ after_call self.old.calls }
    {
        if self.calls.count() {
            return Err(InputError::Failed);
        }
        let place = self.current.unwrap();
        let count = copy_front(&self.files[place].1, self.at, into);
        self.at += count;
        Ok(count)
    }
}

/// The place of the first file of a name.
fn place_of(files: &[(Text, Vec<u8>)], name: &[u8]) -> Option<usize>
    ensures found { IfSome result (λ i. (bytes : List ℕ) × (file_rest files.now 0 i ≡ Some bytes)
        × (file_of (entries files.now) name.now ≡ Some bytes)) }
    ensures within { IfSome result (λ i. i < length files.now) }
    ensures none { IfNone result (file_of (entries files.now) name.now ≡ None) }
{
    for (i, file) in files.iter().enumerate() {
        if file.0.as_bytes() == name {
            return Some(i);
        }
    }
    None
}

/// Copies the bytes from a place on, as many as there is room for.
fn copy_front(bytes: &[u8], at: usize, into: &mut [u8]) -> usize
    ensures count { result ≡ min (length bytes.now - at) (length into.old) }
    ensures copied { take result into.new ≡ take result (drop at bytes.now) }
{
    if at > bytes.len() {
        return 0;
    }
    let rest = &bytes[at..];
    let count = rest.len().min(into.len());
    into[..count].copy_from_slice(&rest[..count]);
    count
}
