//! Outputs that take one byte at a time, or wait.

ghost use Rattle.std.specs.Prelude.{◌≡◌, ◌<◌, ◌≤◌, is_some, length, IfOk, IsErrOf, None};
ghost use Rattle.std.specs.Io.KnownBytes.{WriteAppends};
ghost use Rattle.pipe_columns.specs.Causes.{HasCause};
ghost use Rattle.pipe_io.specs.MemoryOutput.{held_faults, held_bytes};
ghost use Rattle.pipe_io.specs.declared.output.OutputError.TheVariants as output_error;

use pipe_io::{MemoryOutput, Output, OutputError};
use std::alloc::{AllocError, Global};
use std::sync::Arc;
use std::sync::atomic::{AtomicU64, Ordering};
use std::thread::yield_now;

/// An output that takes one byte at a time.
#[derive(Drop)]
pub(crate) struct Bytewise(pub(crate) MemoryOutput);

impl Output for Bytewise {
    ghost told = { λ s. held_bytes s.0 };

    ghost faults = { λ s. held_faults s.0 };

    fn write(&mut self, piece: &[u8]) -> Result<usize, OutputError>
        requires { 0 < length piece.now }
        ensures some { IfOk result (λ n. 0 < n) }
        ensures bound { IfOk result (λ n. n ≤ length piece.now) }
        ensures tells { is_some (held_bytes self.new.0) ≡ is_some (held_bytes self.old.0) }
        ensures bytes { WriteAppends (held_bytes self.old.0) (held_bytes self.new.0) result piece.now }
        ensures cause { HasCause (held_faults self.old.0) (held_faults self.new.0)
            (IsErrOf result output_error.Failed) }
    {
        self.0.write(&piece[..1])
    }
}

/// How often a flag is looked at.
const TURNS: u64 = 100_000_000;

/// Waits until a flag is raised, and says whether it was.
pub(crate) fn is_raised(flag: &AtomicU64) -> bool {
    for _ in 0..TURNS {
        if flag.load(Ordering::SeqCst) != 0 {
            return true;
        }
        yield_now();
    }
    false
}

/// An output that waits in each write until a flag is raised, and counts its writes. It fails where
/// the flag stays down.
#[derive(Drop)]
pub(crate) struct Waiting {
    pub(crate) flag: Arc<AtomicU64, Global>,
    pub(crate) writes: Arc<AtomicU64, Global>,
    pub(crate) faults: u64,
}

impl Output for Waiting {
    ghost told = { λ s. None };

    ghost faults = { λ s. s.faults };

    fn write(&mut self, piece: &[u8]) -> Result<usize, OutputError>
        requires { 0 < length piece.now }
        ensures some { IfOk result (λ n. 0 < n) }
        ensures bound { IfOk result (λ n. n ≤ length piece.now) }
        ensures cause { HasCause self.old.faults self.new.faults
            (IsErrOf result output_error.Failed) }
    {
        if is_raised(&self.flag) {
            self.writes.fetch_add(1, Ordering::SeqCst);
            Ok(piece.len())
        } else {
            self.faults = self.faults.saturating_add(1);
            Err(OutputError::Failed)
        }
    }
}

/// A flag, and what counts writes.
pub(crate) fn shared(alloc: Global, raised: u64) -> Result<Arc<AtomicU64, Global>, AllocError> {
    Arc::new(alloc, AtomicU64::new(raised)).map_err(|_| AllocError)
}
