//! An output in memory, which fails at listed calls.

ghost use Rattle.std.specs.Prelude.{◌≡◌, ◌<◌, ◌≤◌, ◌↔◌, [], is_some, length, IfOk, IsErrOf, IsTrue};
ghost use Rattle.std.specs.Io.KnownBytes.{WriteAppends};
ghost use Rattle.pipe_columns.specs.Calls.{after_call, is_listed, no_calls};
ghost use Rattle.pipe_columns.specs.Causes.{HasCause};
ghost use Rattle.pipe_io.specs.MemoryOutput.{held_faults, held_bytes};
ghost use Rattle.pipe_io.specs.declared.output.OutputError.TheVariants as output_error;

use crate::output::{Output, OutputError};
use pipe_columns::FailingCalls;
use std::alloc::Global;
use std::marker::Model;

/// Bytes in memory, which take each piece whole. Contracts see the bytes and the calls.
#[derive(Drop)]
pub struct MemoryOutput {
    bytes: Vec<u8>,
    calls: FailingCalls,
}

impl Model for MemoryOutput {
    ghost use Rattle.pipe_io.specs.MemoryOutput.{HeldBytes};

    ghost Value = { HeldBytes };

    ghost view = { λ s. record { bytes = s.bytes.items; calls = s.calls } };
}

impl MemoryOutput {
    /// The calls of `write` are numbered from 0, and those listed fail.
    pub fn new(alloc: Global, failing: Vec<u64>) -> MemoryOutput
        ensures empty { result.bytes ≡ [] }
        ensures calls { result.calls ≡ no_calls failing.items }
    {
        MemoryOutput {
            bytes: Vec::new(alloc),
            calls: FailingCalls::new(failing),
        }
    }

    /// The bytes that it was given.
    pub fn bytes(&self) -> &[u8]
        ensures { result.now ≡ self.now.bytes }
    {
        &self.bytes
    }
}

impl Output for MemoryOutput {
    ghost told = { held_bytes };

    ghost faults = { held_faults };

    fn write(&mut self, piece: &[u8]) -> Result<usize, OutputError>
        requires { 0 < length piece.now }
        ensures some { IfOk result (λ n. 0 < n) }
        ensures bound { IfOk result (λ n. n ≤ length piece.now) }
        ensures tells { is_some (held_bytes self.new) ≡ is_some (held_bytes self.old) }
        ensures bytes { WriteAppends (held_bytes self.old) (held_bytes self.new) result piece.now }
        ensures cause { HasCause (held_faults self.old) (held_faults self.new)
            (IsErrOf result output_error.Failed) }
        ensures whole { IfOk result (λ n. n ≡ length piece.now) }
        ensures fails_exactly { IsErrOf result output_error.Failed
            ↔ IsTrue (is_listed self.old.calls) }
        ensures calls { self.new.calls ≡ after_call self.old.calls }
    {
        if self.calls.count() {
            return Err(OutputError::Failed);
        }
        match self.bytes.extend_from_slice(piece) {
            Ok(()) => Ok(piece.len()),
            Err(_) => Err(OutputError::Memory),
        }
    }
}
