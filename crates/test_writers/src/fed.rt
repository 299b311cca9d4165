//! What writers, cores and sinks are fed, and what comes of it.

ghost use Rattle.std.specs.Prelude.{◌≡◌, IsTrue};
ghost use Rattle.pipe_files_sink.specs.Joined.{IsWritable};
ghost use Rattle.pipe_writers.specs.Writers.{IsFresh, IsOpen};

use pipe_columns::{DataChunk, DataFrame, FinalizedSink, Schema, Sink, SinkResult};
use pipe_files_sink::{FilesSender, FilesSink, WriterCore};
use pipe_writers::{SinkWriter, WriteError};
use std::alloc::{AllocError, Global};
use std::sync::Wait;
use std::thread::Threads;

/// Writes a frame that fits and finishes.
pub(crate) fn write_one<W: SinkWriter>(writer: &mut W, frame: &DataFrame) -> Result<(), WriteError>
    requires { IsOpen (W.calls writer.old) }
{
    if !frame.fits(writer.schema()) {
        return Err(WriteError::Memory);
    }
    writer._write_batch(frame)?;
    writer._finish()
}

/// Whether a chunk fits a schema, and its rows can be joined with others.
pub(crate) fn is_taken(schema: &Schema, chunk: &DataChunk) -> bool
    ensures { IsTrue result → IsWritable schema.now chunk.now.frame }
{
    chunk.frame.fits(schema) && chunk.frame.height() <= 1 << 20
}

/// A core takes the chunks that fit its schema, and is finished.
fn put_all<W: SinkWriter>(
    core: &mut WriterCore<W>,
    schema: &Schema,
    chunks: Vec<DataChunk>,
) -> Result<(), WriteError>
    requires open { IsOpen core.old.calls }
    requires schema { W.fields (W.format core.old.writer) ≡ schema.now }
{
    for chunk in chunks {
        if is_taken(schema, &chunk) {
            core.add(chunk)?;
        }
    }
    core.finish()
}

/// What a core answers whose writer took chunks in pieces of two, by their numbers, and was finished, and the
/// writer.
pub(crate) fn write_all<W: SinkWriter>(
    alloc: Global,
    writer: W,
    schema: &Schema,
    chunks: Vec<DataChunk>,
) -> (Result<(), WriteError>, W)
    requires fresh { IsFresh (W.calls writer) }
    requires schema { W.fields (W.format writer) ≡ schema.now }
{
    let mut core = WriterCore::new(alloc, writer, true, 2);
    let written = put_all(&mut core, schema, chunks);
    (written, core.into_writer())
}

/// A sink takes a chunk that fits its schema.
pub(crate) fn sink_into<W, H>(
    sink: &mut FilesSink<W, H>,
    schema: &Schema,
    chunk: DataChunk,
) -> Result<SinkResult, AllocError>
where
    W: SinkWriter + Drop,
    H: Threads + Wait + Copy,
    requires { sink.old.schema ≡ schema.now }
    ensures { sink.new.schema ≡ sink.old.schema }
{
    if !is_taken(schema, &chunk) {
        return Err(AllocError);
    }
    match sink.sink(chunk) {
        Ok(answer) => Ok(answer),
        Err(_) => Err(AllocError),
    }
}

/// A sink takes chunks that fit its schema.
pub(crate) fn sink_all<W, H>(
    sink: &mut FilesSink<W, H>,
    schema: &Schema,
    chunks: Vec<DataChunk>,
) -> Result<(), AllocError>
where
    W: SinkWriter + Drop,
    H: Threads + Wait + Copy,
    requires { sink.old.schema ≡ schema.now }
    ensures { sink.new.schema ≡ sink.old.schema }
{
    for chunk in chunks {
        sink_into(sink, schema, chunk)?;
    }
    Ok(())
}

/// A sender takes a chunk that fits the schema of its sink.
pub(crate) fn send_into<W: SinkWriter + Drop, H: Wait>(
    sender: &mut FilesSender<W, H>,
    schema: &Schema,
    chunk: DataChunk,
) -> Result<SinkResult, AllocError>
    requires { sender.old.schema ≡ schema.now }
    ensures { sender.new.schema ≡ sender.old.schema }
{
    if !is_taken(schema, &chunk) {
        return Err(AllocError);
    }
    match sender.sink(chunk) {
        Ok(answer) => Ok(answer),
        Err(_) => Err(AllocError),
    }
}

/// Whether a sink ends well, without a row; or how its writing failed.
pub(crate) fn ended<W, H>(sink: &mut FilesSink<W, H>) -> Result<bool, WriteError>
where
    W: SinkWriter + Drop,
    H: Threads + Wait + Copy,
    ensures { sink.new.schema ≡ sink.old.schema }
{
    let FinalizedSink::Finished(frame) = sink.finalize()?;
    Ok(frame.height() == 0)
}

/// Whether a text was written whole. Where memory was wanting, and a front of it was written, the error tells that.
pub(crate) fn is_written(
    end: Result<bool, WriteError>,
    told: &[u8],
    text: &[u8],
) -> Result<bool, AllocError> {
    match end {
        Ok(done) => Ok(done && told == text),
        Err(WriteError::Memory) if text.starts_with(told) => Err(AllocError),
        Err(_) => Ok(false),
    }
}
