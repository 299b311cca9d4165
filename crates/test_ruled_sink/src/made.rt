//! Schemas, chunks and outputs of tests.

ghost use Rattle.std.specs.Prelude.{◌<◌, ◌≤◌, IfOk, IsErrOf, None, length};
ghost use Rattle.pipe_columns.specs.Causes.{HasCause};
ghost use Rattle.pipe_io.specs.declared.output.OutputError.TheVariants as output_error;

use pipe_columns::{AnyValue, Column, DataChunk, DataFrame, DataType, Field, Schema, Text};
use pipe_io::{MemoryOutput, Output, OutputError};
use std::alloc::{AllocError, Global};
use std::sync::Arc;
use std::sync::atomic::{AtomicU64, Ordering};
use std::test::Fail;
use std::thread::yield_now;

/// One field of texts.
pub(crate) fn texts(alloc: Global) -> Result<Schema, AllocError> {
    let mut fields = Vec::new(alloc);
    let name = Text::new(alloc, "t")?;
    let dtype = DataType::String;
    fields.push(Field { name, dtype })?;
    Ok(Schema::new(fields))
}

/// A chunk of that field.
fn chunk_of(alloc: Global, chunk_index: u32, values: Vec<AnyValue>) -> Result<DataChunk, Fail> {
    let height = values.len();
    let name = Text::new(alloc, "t")?;
    let column = Column::new(name, DataType::String, false, values).ok_or("no column")?;
    let columns = vec![in alloc; column]?;
    let frame = DataFrame::new(height, columns).ok_or("no frame")?;
    Ok(DataChunk { chunk_index, frame })
}

/// A chunk of so many rows without a text.
fn blank_rows(alloc: Global, chunk_index: u32, rows: usize) -> Result<DataChunk, Fail> {
    let mut values = Vec::new(alloc);
    for _ in 0..rows {
        values.push(AnyValue::Null)?;
    }
    chunk_of(alloc, chunk_index, values)
}

/// So many chunks, each of as many rows as are written at once.
pub(crate) fn blank_chunks(alloc: Global, count: u32) -> Result<Vec<DataChunk>, Fail> {
    let mut chunks = Vec::new(alloc);
    for number in 0..count {
        chunks.push(blank_rows(alloc, number, 4096)?)?;
    }
    Ok(chunks)
}

/// An output in memory of which the listed calls fail.
pub(crate) fn output(alloc: Global, failing: &[u64]) -> Result<MemoryOutput, AllocError> {
    Ok(MemoryOutput::new(alloc, Vec::from_slice(alloc, failing)?))
}

/// How often a count is looked at.
const TURNS: u64 = 100_000_000;

/// Waits until something was counted, and says whether it was.
pub(crate) fn is_raised(count: &AtomicU64) -> bool {
    for _ in 0..TURNS {
        if count.load(Ordering::SeqCst) != 0 {
            return true;
        }
        yield_now();
    }
    false
}

/// An output that counts its writes.
#[derive(Drop)]
pub(crate) struct Counting {
    pub(crate) writes: Arc<AtomicU64, Global>,
    pub(crate) faults: u64,
}

impl Output for Counting {
    ghost told = { λ s. None };

    ghost faults = { λ s. s.faults };

    fn write(&mut self, piece: &[u8]) -> Result<usize, OutputError>
        requires { 0 < length piece.now }
        ensures some { IfOk result (λ n. 0 < n) }
        ensures bound { IfOk result (λ n. n ≤ length piece.now) }
        ensures cause { HasCause self.old.faults self.new.faults
            (IsErrOf result output_error.Failed) }
    {
        self.writes.fetch_add(1, Ordering::SeqCst);
        Ok(piece.len())
    }
}
