//! How many rows readers and sources give. A call whose input failed, or that wanted memory, is made
//! again.

ghost use Rattle.std.specs.Prelude.{◌<◌};

use crate::made::{Asked, reader_of};
use pipe_columns::{DataChunk, Source, SourceResult};
use pipe_csv::CsvError;
use pipe_io::InputFiles;
use pipe_source::{ChunkReader, CsvSource};
use std::alloc::{AllocError, Global};
use std::thread::Threads;

/// How many rows were read, and whether a call wanted memory.
#[derive(Clone, Copy)]
pub(crate) struct Read {
    pub rows: usize,
    pub is_refused: bool,
}

/// Nothing was read yet.
pub(crate) const NOTHING: Read = Read {
    rows: 0,
    is_refused: false,
};

impl Read {
    /// Counts the rows of chunks.
    fn add(&mut self, chunks: &[DataChunk]) {
        for chunk in chunks {
            self.rows = self.rows.wrapping_add(chunk.frame.height());
        }
    }

    /// Notes why a call was refused, where it is made again.
    fn note(&mut self, error: CsvError) -> Result<(), CsvError> {
        match error {
            CsvError::Input => Ok(()),
            CsvError::Memory => {
                self.is_refused = true;
                Ok(())
            }
            other => Err(other),
        }
    }
}

/// Reads a round of so many chunks, whose memory the next one takes; whether more may come.
fn read_round<I: InputFiles, H: Threads + Sync>(
    rt: &H,
    alloc: Global,
    read: &mut Read,
    reader: &mut ChunkReader,
    input: &mut I,
    count: usize,
    threads: usize,
) -> Result<bool, CsvError>
    requires { 0 < threads }
{
    match reader.get_round(rt, alloc, input, count, threads) {
        Ok(chunks) => {
            read.add(&chunks);
            let is_whole = chunks.len() >= count;
            reader.take_back(chunks);
            Ok(is_whole)
        }
        Err((error, _)) => {
            read.note(error)?;
            Ok(true)
        }
    }
}

/// Reads all in rounds of so many chunks, by so many threads.
pub(crate) fn read_by_rounds<I: InputFiles, H: Threads + Sync>(
    rt: &H,
    alloc: Global,
    read: &mut Read,
    reader: &mut ChunkReader,
    input: &mut I,
    count: usize,
    threads: usize,
) -> Result<(), CsvError> {
    if threads == 0 {
        return Ok(());
    }
    for _ in 0..1000 {
        if !read_round(rt, alloc, read, reader, input, count, threads)? {
            break;
        }
    }
    Ok(())
}

/// Reads what a call of a source gives; whether more may come.
fn read_batches<I: InputFiles>(
    read: &mut Read,
    source: &mut CsvSource<'_, I>,
) -> Result<bool, CsvError> {
    match source.get_batches() {
        Ok(SourceResult::GotMoreData(chunks)) => {
            read.add(&chunks);
            Ok(true)
        }
        Ok(SourceResult::Finished) => Ok(false),
        Err(error) => {
            read.note(error)?;
            Ok(true)
        }
    }
}

/// Reads all that a source gives at single calls.
pub(crate) fn read_source<I: InputFiles>(
    read: &mut Read,
    source: &mut CsvSource<'_, I>,
) -> Result<(), CsvError> {
    for _ in 0..100 {
        if !read_batches(read, source)? {
            break;
        }
    }
    Ok(())
}

/// Whether a reading ended so: with so many rows, or a refusal. Where a call wanted memory, and gave them when
/// it was made again, the error tells that.
pub(crate) fn is_due(
    alloc: Global,
    end: Result<(), CsvError>,
    read: Read,
    due: &str,
) -> Result<bool, AllocError> {
    let shown = match end {
        Ok(()) => format!(in alloc; "{}", read.rows)?,
        Err(error) => format!(in alloc; "{error:?}")?,
    };
    if shown.as_str() == due && read.is_refused {
        return Err(AllocError);
    }
    Ok(shown.as_str() == due)
}

/// Whether an input gives so many rows or a refusal to a new reader, in rounds of so many chunks, by so many
/// threads.
pub(crate) fn gives<I: InputFiles, H: Threads + Sync>(
    rt: &H,
    alloc: Global,
    asked: &Asked,
    input: &mut I,
    way: (usize, usize),
    due: &str,
) -> Result<bool, AllocError> {
    let mut read = NOTHING;
    let mut reader = reader_of(alloc, asked)?;
    let end = read_by_rounds(rt, alloc, &mut read, &mut reader, input, way.0, way.1);
    drop(reader);
    is_due(alloc, end, read, due)
}
