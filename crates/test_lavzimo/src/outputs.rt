//! An output that takes little at a time, and no second looks.

ghost use Rattle.std.specs.Prelude.{◌≡◌, ◌<◌, ◌≤◌, is_some, length, IfOk, IsErrOf};
ghost use Rattle.std.specs.Io.KnownBytes.{WriteAppends};
ghost use Rattle.pipe_columns.specs.Causes.{HasCause};
ghost use Rattle.pipe_io.specs.MemoryOutput.{held_bytes, held_faults};
ghost use Rattle.pipe_io.specs.declared.output.OutputError.TheVariants as output_error;

use lavzimo_answer::{ClosableOutput, Look, Looks, Names};
use pipe_csv::CsvError;
use pipe_io::{MemoryOutput, Output, OutputError};

/// How many bytes a narrow output takes at a time.
pub(crate) const PIECE: usize = 6;

/// An output that takes six bytes at a time, and says whether its reader is gone.
#[derive(Drop)]
pub(crate) struct Narrow {
    pub(crate) held: MemoryOutput,
    pub(crate) closed: bool,
}

impl Output for Narrow {
    ghost told = { λ s. held_bytes s.held };

    ghost faults = { λ s. held_faults s.held };

    fn write(&mut self, piece: &[u8]) -> Result<usize, OutputError>
        requires { 0 < length piece.now }
        ensures some { IfOk result (λ n. 0 < n) }
        ensures bound { IfOk result (λ n. n ≤ length piece.now) }
        ensures tells { is_some (held_bytes self.new.held) ≡ is_some (held_bytes self.old.held) }
        ensures bytes { WriteAppends (held_bytes self.old.held) (held_bytes self.new.held) result
            piece.now }
        ensures cause { HasCause (held_faults self.old.held) (held_faults self.new.held)
            (IsErrOf result output_error.Failed) }
    {
        self.held.write(&piece[..piece.len().min(PIECE)])
    }
}

impl ClosableOutput for Narrow {
    fn is_closed(&self) -> bool {
        self.closed
    }
}

/// Looks that see nothing.
#[derive(Drop)]
pub(crate) struct Unseeing;

impl Looks for Unseeing {
    fn look(&mut self, _names: &Names, _error: &CsvError) -> Option<Look> {
        None
    }
}
