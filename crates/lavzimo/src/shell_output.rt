//! Standard output, which knows whether its reader is gone.

ghost use Rattle.std.specs.Prelude.{◌≡◌};
ghost use Rattle.std.specs.Io.{WritesAtMost};

use lavzimo_answer::ClosableOutput;
use pipe_io::{Output, OutputError};
use std::io::{ErrorKind, Write};
use std::marker::Model;

/// A writer, which is flushed in each write. It tells none of its bytes. Contracts see its count of
/// faults.
#[derive(Drop)]
pub struct ShellOutput<W> {
    writer: W,
    faults: u64,
    closed: bool,
}

impl<W> Model for ShellOutput<W> {
    ghost use Rattle.std.specs.Prelude.{ℕ};

    ghost Value = { ℕ };

    ghost view = { λ s. s.faults };
}

impl<W: Write + Drop> ShellOutput<W> {
    /// No write is made yet.
    pub fn new(writer: W) -> ShellOutput<W>
        ensures { result ≡ 0 }
    {
        ShellOutput {
            writer,
            faults: 0,
            closed: false,
        }
    }
}

impl<W: Write + Drop> Output for ShellOutput<W> {
    ghost use Rattle.std.specs.Prelude.{None};

    ghost told = { λ s. None };

    ghost faults = { λ n. n };

    fn write(&mut self, piece: &[u8]) -> Result<usize, OutputError> {
        match written(&mut self.writer, piece) {
            Ok(count) if count > 0 => Ok(count),
            Err(ErrorKind::OutOfMemory) => Err(OutputError::Memory),
            Err(ErrorKind::BrokenPipe) => {
                self.closed = true;
                self.faults = self.faults.saturating_add(1);
                Err(OutputError::Failed)
            }
            _ => {
                self.faults = self.faults.saturating_add(1);
                Err(OutputError::Failed)
            }
        }
    }
}

impl<W: Write + Drop> ClosableOutput for ShellOutput<W> {
    fn is_closed(&self) -> bool {
        self.closed
    }
}

/// How many bytes a write took, after a flush.
fn written<W: Write>(writer: &mut W, piece: &[u8]) -> Result<usize, ErrorKind>
    ensures { WritesAtMost result piece.now }
{
    match writer.write(piece) {
        Ok(count) => match writer.flush() {
            Ok(()) => Ok(count),
            Err(error) => Err(error.kind()),
        },
        Err(error) => Err(error.kind()),
    }
}
