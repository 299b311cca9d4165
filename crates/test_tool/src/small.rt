//! An output that takes little at a time.

ghost use Rattle.std.specs.Prelude.{◌≡◌, ◌<◌, ◌≤◌, is_some, length, IfOk, IsErrOf};
ghost use Rattle.std.specs.Io.KnownBytes.{WriteAppends};
ghost use Rattle.pipe_columns.specs.Causes.{HasCause};
ghost use Rattle.pipe_io.specs.MemoryOutput.{held_faults, held_bytes};
ghost use Rattle.pipe_io.specs.declared.output.OutputError.TheVariants as output_error;

use pipe_io::{MemoryOutput, Output, OutputError};
use std::alloc::{AllocError, Global};

/// How many bytes it takes: as many as the line of names has, which is written by calls of its own.
pub(crate) const PIECE: usize = 6;

/// An output that takes six bytes at a time.
#[derive(Drop)]
pub(crate) struct Small(pub(crate) MemoryOutput);

/// One of which listed calls fail.
pub(crate) fn output_of(alloc: Global, failing: &[u64]) -> Result<Small, AllocError> {
    Ok(Small(MemoryOutput::new(alloc, Vec::from_slice(alloc, failing)?)))
}

impl Output for Small {
    ghost told = { λ s. held_bytes s.0 };

    ghost faults = { λ s. held_faults s.0 };

    fn write(&mut self, piece: &[u8]) -> Result<usize, OutputError>
        requires { 0 < length piece.now }
        ensures some { IfOk result (λ n. 0 < n) }
        ensures bound { IfOk result (λ n. n ≤ length piece.now) }
        ensures tells { is_some (held_bytes self.new.0) ≡ is_some (held_bytes self.old.0) }
        ensures bytes { WriteAppends (held_bytes self.old.0) (held_bytes self.new.0) result piece.now }
        ensures cause { HasCause (held_faults self.old.0) (held_faults self.new.0)
            (IsErrOf result output_error.Failed) }
    {
        self.0.write(&piece[..piece.len().min(PIECE)])
    }
}
