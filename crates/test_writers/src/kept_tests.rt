//! Sinks that keep chunks, of which a call wants memory and is then made again.

ghost use Rattle.std.specs.Prelude.{◌≡◌, ◌<◌, ◌^◌, IfOk};
ghost use Rattle.pipe_writers.specs.Kept.{row_count};

use crate::fed::is_taken;
use crate::hold::hold;
use crate::made::{chunk_of, output, texts};
use pipe_columns::{DataChunk, DataFrame, FinalizedSink, Schema, Sink};
use pipe_io::MemoryOutput;
use pipe_writers::{OrderedSink, SliceSink, copy_schema, write_csv};
use std::alloc::{AllocError, Global};
use std::test::Fail;

/// The frame that a sink gives, at the second call where memory was wanting at the first.
fn given_again<S: Sink<Fault = AllocError>>(sink: &mut S) -> Result<DataFrame, AllocError> {
    if let Ok(FinalizedSink::Finished(frame)) = sink.finalize() {
        return Ok(frame);
    }
    let FinalizedSink::Finished(frame) = sink.finalize()?;
    Ok(frame)
}

/// Whether a sink gives a frame with a text as CSV.
fn gives<S: Sink<Fault = AllocError>>(
    alloc: Global,
    sink: &mut S,
    csv: &mut MemoryOutput,
    text: &[u8],
) -> Result<bool, AllocError> {
    let frame = given_again(sink)?;
    let is_written = write_csv(alloc, csv, &frame).is_ok();
    drop(frame);
    if !is_written {
        return Err(AllocError);
    }
    Ok(csv.bytes() == text)
}

/// An ordered sink that keeps a chunk.
fn ordered(alloc: Global, schema: &Schema, chunk: DataChunk) -> Result<OrderedSink, AllocError>
    ensures fields { IfOk result (λ s. s.kept.fields ≡ schema.now) }
    ensures few { IfOk result (λ s. row_count s.kept.chunks < 2 ^ 62) }
{
    if !is_taken(schema, &chunk) {
        return Err(AllocError);
    }
    let mut sink = OrderedSink::new(alloc, copy_schema(alloc, schema)?);
    sink.sink(chunk)?;
    Ok(sink)
}

/// Whether a sink that took another one in gives the rows of both by the numbers of their chunks.
fn gives_in_order(
    alloc: Global,
    schema: &Schema,
    csv: &mut MemoryOutput,
) -> Result<bool, AllocError> {
    let mut sink = ordered(alloc, schema, chunk_of(alloc, 3, &["c"])?)?;
    let mut other = ordered(alloc, schema, chunk_of(alloc, 0, &["a", "b"])?)?;
    sink.combine(&mut other)?;
    gives(alloc, &mut sink, csv, b"t\na\nb\nc\n")
}

/// Whether a sink without a chunk gives the empty frame.
fn gives_none(alloc: Global, csv: &mut MemoryOutput) -> Result<bool, AllocError> {
    let mut sink = OrderedSink::new(alloc, texts(alloc)?).split()?;
    gives(alloc, &mut sink, csv, b"t\n")
}

#[test]
fn memory_for_an_ordered_sink(rt: HostRuntime) -> Result<(), Fail> {
    let schema = texts(rt.alloc())?;
    hold(gives_in_order(rt.alloc(), &schema, &mut output(rt.alloc(), &[])?))
}

#[test]
fn memory_for_a_sink_without_chunks(rt: HostRuntime) -> Result<(), Fail> {
    hold(gives_none(rt.alloc(), &mut output(rt.alloc(), &[])?))
}

/// A sink of the second and third row that keeps a chunk.
fn sliced(alloc: Global, schema: &Schema, chunk: DataChunk) -> Result<SliceSink, AllocError>
    ensures fields { IfOk result (λ s. s.kept.fields ≡ schema.now) }
    ensures few { IfOk result (λ s. row_count s.kept.chunks < 2 ^ 62) }
{
    if !is_taken(schema, &chunk) {
        return Err(AllocError);
    }
    let mut sink = SliceSink::new(alloc, 1, 2, copy_schema(alloc, schema)?);
    sink.sink(chunk)?;
    Ok(sink)
}

/// Whether a sink that took another one in gives the second and third row of both.
fn gives_slice(alloc: Global, schema: &Schema, csv: &mut MemoryOutput) -> Result<bool, AllocError> {
    let mut sink = sliced(alloc, schema, chunk_of(alloc, 3, &["c", "d"])?)?;
    let mut other = sliced(alloc, schema, chunk_of(alloc, 0, &["a", "b"])?)?;
    sink.combine(&mut other)?;
    gives(alloc, &mut sink, csv, b"t\nb\nc\n")
}

#[test]
fn memory_for_a_slice_sink(rt: HostRuntime) -> Result<(), Fail> {
    let schema = texts(rt.alloc())?;
    hold(gives_slice(rt.alloc(), &schema, &mut output(rt.alloc(), &[])?))
}
