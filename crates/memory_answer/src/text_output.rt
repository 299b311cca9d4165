//! A text that is written in memory.

ghost use Rattle.std.specs.Prelude.{◌≡◌, []};

use pipe_io::{Output, OutputError};
use std::alloc::Global;
use std::marker::Model;

/// The bytes that were written, in one vector. No write of them fails but for want of memory.
#[derive(Drop)]
pub(crate) struct TextOutput {
    bytes: Vec<u8>,
}

impl Model for TextOutput {
    ghost use Rattle.std.specs.Prelude.{ℕ, List};

    ghost Value = { List ℕ };

    ghost view = { λ s. s.bytes.items };
}

impl TextOutput {
    /// Nothing is written yet.
    pub(crate) fn new(alloc: Global) -> TextOutput
        ensures { result ≡ [] }
    {
        TextOutput {
            bytes: Vec::new(alloc),
        }
    }

    /// The bytes, which are given up.
    pub(crate) fn into_bytes(self) -> Vec<u8>
        ensures { result.items ≡ self }
    {
        self.bytes
    }
}

ghost use Rattle.memory_answer.specs.Held.{no_faults, written};

impl Output for TextOutput {
    ghost told = { written };

    ghost faults = { no_faults };

    fn write(&mut self, piece: &[u8]) -> Result<usize, OutputError> {
        match self.bytes.extend_from_slice(piece) {
            Ok(()) => Ok(piece.len()),
            Err(_) => Err(OutputError::Memory),
        }
    }
}
