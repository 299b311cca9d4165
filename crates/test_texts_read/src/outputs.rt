//! What outputs in memory and writers take, and what comes where a write fails.

use crate::hold::hold;
use pipe_io::{MemoryOutput, Output, OutputError, RealOutput, write_all};
use std::io::{self, Error, ErrorKind, Write};
use std::test::Fail;

/// Whether an output takes some bytes.
fn takes<O: Output>(output: &mut O, bytes: &[u8]) -> bool {
    write_all(output, bytes).is_ok()
}

/// Whether an output of which the second call fails takes no byte, `ab`, and `c` at the second time.
fn takes_in_turn(output: &mut MemoryOutput) -> bool {
    takes(output, b"")
        && takes(output, b"ab")
        && !takes(output, b"c")
        && takes(output, b"c")
        && output.bytes() == b"abc".as_slice()
}

/// A writer that takes so many bytes at once, or fails.
#[derive(Clone, Copy, Drop)]
struct FixedWriter {
    takes: usize,
    write_fault: Option<ErrorKind>,
    flush_fault: Option<ErrorKind>,
}

impl Write for FixedWriter {
    fn write(&mut self, piece: &[u8]) -> io::Result<usize> {
        match self.write_fault {
            Some(kind) => Err(Error::from(kind)),
            None => Ok(self.takes.min(piece.len())),
        }
    }

    fn flush(&mut self) -> io::Result<()> {
        match self.flush_fault {
            Some(kind) => Err(Error::from(kind)),
            None => Ok(()),
        }
    }
}

/// Whether three bytes that go to such a writer come to this.
fn comes_to(
    takes: usize,
    write_fault: Option<ErrorKind>,
    flush_fault: Option<ErrorKind>,
    end: Result<(), OutputError>,
) -> bool {
    let writer = FixedWriter {
        takes,
        write_fault,
        flush_fault,
    };
    write_all(&mut RealOutput::new(writer), b"abc") == end
}

/// Whether what comes of writers is due, by how many bytes they take at once and how they fail.
fn all_come_to() -> bool {
    let other = Some(ErrorKind::Other);
    let memory = Some(ErrorKind::OutOfMemory);
    comes_to(1, None, None, Ok(()))
        && comes_to(0, None, None, Err(OutputError::Failed))
        && comes_to(1, other, None, Err(OutputError::Failed))
        && comes_to(1, None, other, Err(OutputError::Failed))
        && comes_to(1, memory, None, Err(OutputError::Memory))
}

/// Whether three bytes that go to a vector are what it holds then.
fn takes_all(text: &mut Vec<u8>) -> bool {
    takes(&mut RealOutput::new(&mut *text), b"abc") && text.as_slice() == b"abc".as_slice()
}

#[test]
fn outputs_take_bytes_or_fail(rt: HostRuntime) -> Result<(), Fail> {
    let mut output = MemoryOutput::new(rt.alloc(), Vec::from_slice(rt.alloc(), &[1])?);
    let take = takes_in_turn(&mut output) && takes_all(&mut Vec::new(rt.alloc()));
    hold(Ok(take && all_come_to()))
}
