//! Sinks that end: by a failing output, while senders live, and twice.

ghost use Rattle.std.specs.Prelude.{◌≡◌};

use crate::fed::{ended, send_into, sink_all, sink_into};
use crate::hold::hold;
use crate::made::{blank_rows, chunk_of, csv_sink, output, texts};
use pipe_columns::{DataChunk, Schema, Sink, SinkResult};
use pipe_files_sink::{FilesSender, FilesSink};
use pipe_writers::{SinkWriter, WriteError};
use std::alloc::{AllocError, Global};
use std::sync::Wait;
use std::test::Fail;
use std::thread::Threads;

/// Eight chunks, each of as many rows as are written at once.
fn eight_chunks(alloc: Global) -> Result<Vec<DataChunk>, AllocError> {
    let mut chunks = Vec::new(alloc);
    for number in 0..8u32 {
        chunks.push(blank_rows(alloc, number, 4096)?)?;
    }
    Ok(chunks)
}

/// Whether a sink tells twice of its failed output.
fn tells_twice<W, H>(sink: &mut FilesSink<W, H>) -> bool
where
    W: SinkWriter + Drop,
    H: Threads + Wait + Copy,
{
    ended(sink) == Err(WriteError::Output) && ended(sink) == Err(WriteError::Output)
}

/// Whether a sink whose output fails takes eight chunks, tells twice of it, and has written nothing.
fn takes_all<H: Threads + Wait + Copy + Send + 'static>(
    rt: H,
    alloc: Global,
    schema: &Schema,
) -> Result<bool, AllocError> {
    let mut sink = csv_sink(rt, alloc, output(alloc, &[0])?, schema, true, 1)?;
    sink_all(&mut sink, schema, eight_chunks(alloc)?)?;
    let tells = tells_twice(&mut sink);
    let told = sink.into_writer().ok_or(AllocError)?.into_output();
    Ok(tells && told.bytes().is_empty())
}

#[test]
fn failing_output_never_halts_a_sink(rt: HostRuntime) -> Result<(), Fail> {
    let schema = texts(rt.alloc())?;
    hold(takes_all(rt, rt.alloc(), &schema))
}

/// Whether a sink that has ended, a sender that it had and one that it makes now take no chunk.
fn takes_none<W, H>(
    alloc: Global,
    sink: &mut FilesSink<W, H>,
    sender: &mut FilesSender<W, H>,
    schema: &Schema,
) -> Result<bool, AllocError>
where
    W: SinkWriter + Drop,
    H: Threads + Wait + Copy + Drop,
    requires sink { sink.old.schema ≡ schema.now }
    requires sender { sender.old.schema ≡ schema.now }
{
    let by_sink = sink_into(sink, schema, chunk_of(alloc, 2, &["c"])?)?;
    let by_sender = send_into(sender, schema, chunk_of(alloc, 3, &["d"])?)?;
    let by_late = send_into(&mut sink.split()?, schema, chunk_of(alloc, 4, &["e"])?)?;
    Ok(
        by_sink == SinkResult::Finished
            && by_sender == SinkResult::Finished
            && by_late == SinkResult::Finished,
    )
}

/// Whether a sink and its sender take a chunk each, the sink ends well, twice, and then no chunk is taken.
fn do_both_end<W, H>(
    alloc: Global,
    sink: &mut FilesSink<W, H>,
    sender: &mut FilesSender<W, H>,
    schema: &Schema,
) -> Result<bool, AllocError>
where
    W: SinkWriter + Drop,
    H: Threads + Wait + Copy + Drop,
    requires sink { sink.old.schema ≡ schema.now }
    requires sender { sender.old.schema ≡ schema.now }
{
    sink_into(sink, schema, chunk_of(alloc, 1, &["a"])?)?;
    send_into(sender, schema, chunk_of(alloc, 0, &["b"])?)?;
    let first = ended(sink) == Ok(true);
    let none = takes_none(alloc, sink, sender, schema)?;
    Ok(first && none && ended(sink) == Ok(true))
}

/// Whether that is so of a sink and a new sender.
fn do_both_end_so<W, H>(
    alloc: Global,
    sink: &mut FilesSink<W, H>,
    schema: &Schema,
) -> Result<bool, AllocError>
where
    W: SinkWriter + Drop,
    H: Threads + Wait + Copy + Drop,
    requires { sink.old.schema ≡ schema.now }
{
    let mut sender = sink.split()?;
    do_both_end(alloc, sink, &mut sender, schema)
}

/// Whether both have written what they took.
fn do_both_write<H: Threads + Wait + Copy + Drop + Send + 'static>(
    rt: H,
    alloc: Global,
    schema: &Schema,
) -> Result<bool, AllocError> {
    let mut sink = csv_sink(rt, alloc, output(alloc, &[])?, schema, true, 1)?;
    let end = do_both_end_so(alloc, &mut sink, schema)?;
    let told = sink.into_writer().ok_or(AllocError)?.into_output();
    Ok(end && told.bytes() == b"t\na\nb\n".as_slice())
}

#[test]
fn finalize_leaves_senders_without_a_writer(rt: HostRuntime) -> Result<(), Fail> {
    let schema = texts(rt.alloc())?;
    hold(do_both_write(rt, rt.alloc(), &schema))
}
