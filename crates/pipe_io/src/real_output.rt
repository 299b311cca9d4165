//! Any writer as an output.

ghost use Rattle.std.specs.Prelude.{◌≡◌};
ghost use Rattle.std.specs.Io.{WritesAtMost};

use crate::output::{Output, OutputError};
use std::io::{ErrorKind, Write};
use std::marker::Model;

/// A writer, which is flushed in each write. It tells none of its bytes. Contracts see its count of
/// faults.
#[derive(Drop)]
pub struct RealOutput<W> {
    writer: W,
    faults: u64,
}

impl<W> Model for RealOutput<W> {
    ghost use Rattle.std.specs.Prelude.{ℕ};

    ghost Value = { ℕ };

    ghost view = { λ s. s.faults };
}

impl<W: Write + Drop> RealOutput<W> {
    /// No write is made yet.
    pub fn new(writer: W) -> RealOutput<W>
        ensures { result ≡ 0 }
    {
        RealOutput { writer, faults: 0 }
    }
}

impl<W: Write + Drop> Output for RealOutput<W> {
    ghost use Rattle.std.specs.Prelude.{None};

    ghost told = { λ s. None };

    ghost faults = { λ n. n };

    fn write(&mut self, piece: &[u8]) -> Result<usize, OutputError> {
        match written(&mut self.writer, piece) {
            Ok(count) if count > 0 => Ok(count),
            Err(ErrorKind::OutOfMemory) => Err(OutputError::Memory),
            _ => {
                self.faults = self.faults.saturating_add(1);
                Err(OutputError::Failed)
            }
        }
    }
}

/// How many bytes a write took, after a flush.
fn written<W: Write>(writer: &mut W, piece: &[u8]) -> Result<usize, ErrorKind>
    ensures { WritesAtMost result piece.now }
{
    match writer.write(piece) {
        Ok(count) => match writer.flush() {
            Ok(()) => Ok(count),
            Err(error) => Err(error.kind()),
        },
        Err(error) => Err(error.kind()),
    }
}
