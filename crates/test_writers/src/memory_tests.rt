//! Calls that want memory. `rt try --test --fail-alloc N` refuses the allocation of number N: a
//! test then fails by an error that says so. `scripts/refuse_allocations.py test_writers` tries each
//! number, and says what each test ended with.

ghost use Rattle.std.specs.Prelude.{◌≡◌};

use crate::fed::{ended, is_written, send_into, sink_into, write_all};
use crate::hold::hold;
use crate::made::{
    chunk_of, csv_sink, csv_writer, frame_of, json_writer, output, texts, three_chunks,
};
use pipe_columns::{DataChunk, DataFrame, Schema, SinkResult};
use pipe_files_sink::{FilesSender, FilesSink};
use pipe_io::MemoryOutput;
use pipe_writers::{SinkWriter, WriteError, write_csv, write_json};
use std::alloc::{AllocError, Global};
use std::sync::Wait;
use std::test::Fail;
use std::thread::Threads;

/// An end without a fault.
fn done(written: Result<(), WriteError>) -> Result<bool, WriteError> {
    written?;
    Ok(true)
}

/// Whether a core of CSV writes chunks.
fn does_core_write_csv(alloc: Global, schema: &Schema) -> Result<bool, AllocError> {
    let chunks = three_chunks(alloc)?;
    let writer = csv_writer(alloc, output(alloc, &[])?, schema)?;
    let (written, writer) = write_all(alloc, writer, schema, chunks);
    let told = writer.into_output();
    is_written(done(written), told.bytes(), b"t\na\nc\nb\n")
}

/// Whether a core of lines of JSON does.
fn does_core_write_json(alloc: Global, schema: &Schema) -> Result<bool, AllocError> {
    let chunks = three_chunks(alloc)?;
    let writer = json_writer(alloc, output(alloc, &[])?, schema)?;
    let (written, writer) = write_all(alloc, writer, schema, chunks);
    let text = b"{\"t\":\"a\"}\n{\"t\":\"c\"}\n{\"t\":\"b\"}\n";
    let told = writer.into_output();
    is_written(done(written), told.bytes(), text)
}

#[test]
fn memory_for_cores(rt: HostRuntime) -> Result<(), Fail> {
    let schema = texts(rt.alloc())?;
    hold(does_core_write_csv(rt.alloc(), &schema))?;
    hold(does_core_write_json(rt.alloc(), &schema))
}

/// Whether a frame is written as CSV.
fn is_csv_written(
    alloc: Global,
    frame: &DataFrame,
    output: &mut MemoryOutput,
) -> Result<bool, AllocError> {
    let written = write_csv(alloc, output, frame);
    is_written(done(written), output.bytes(), b"t\nb\n")
}

/// Whether a frame is written as a line of JSON.
fn is_json_written(
    alloc: Global,
    frame: &DataFrame,
    output: &mut MemoryOutput,
) -> Result<bool, AllocError> {
    let written = write_json(alloc, output, frame);
    is_written(done(written), output.bytes(), b"{\"t\":\"b\"}\n")
}

#[test]
fn memory_for_a_frame(rt: HostRuntime) -> Result<(), Fail> {
    let frame = frame_of(rt.alloc(), &["b"])?;
    hold(is_csv_written(rt.alloc(), &frame, &mut output(rt.alloc(), &[])?))?;
    hold(is_json_written(rt.alloc(), &frame, &mut output(rt.alloc(), &[])?))
}

/// A sender takes chunks that fit the schema of its sink.
fn send_all<W: SinkWriter + Drop, H: Wait>(
    sender: &mut FilesSender<W, H>,
    schema: &Schema,
    chunks: Vec<DataChunk>,
) -> Result<(), AllocError>
    requires { sender.old.schema ≡ schema.now }
    ensures { sender.new.schema ≡ sender.old.schema }
{
    for chunk in chunks {
        send_into(sender, schema, chunk)?;
    }
    Ok(())
}

/// How a sink ends whose sender takes the first chunks, and which takes the last one itself; and whether its sender
/// then takes none.
fn end_of<W, H>(
    alloc: Global,
    sink: &mut FilesSink<W, H>,
    sender: &mut FilesSender<W, H>,
    schema: &Schema,
) -> Result<Result<bool, WriteError>, AllocError>
where
    W: SinkWriter + Drop,
    H: Threads + Wait + Copy,
    requires sink { sink.old.schema ≡ schema.now }
    requires sender { sender.old.schema ≡ schema.now }
{
    send_all(sender, schema, three_chunks(alloc)?)?;
    sink_into(sink, schema, chunk_of(alloc, 4, &["d"])?)?;
    let end = ended(sink);
    if send_into(sender, schema, chunk_of(alloc, 5, &["e"])?)? == SinkResult::Finished {
        Ok(end)
    } else {
        Ok(Ok(false))
    }
}

/// The same with a new sender.
fn end_with_sender<W, H>(
    alloc: Global,
    sink: &mut FilesSink<W, H>,
    schema: &Schema,
) -> Result<Result<bool, WriteError>, AllocError>
where
    W: SinkWriter + Drop,
    H: Threads + Wait + Copy + Drop,
    requires { sink.old.schema ≡ schema.now }
{
    let mut sender = sink.split()?;
    end_of(alloc, sink, &mut sender, schema)
}

/// Whether a sink and its sender write what both took.
fn do_both_write<H: Threads + Wait + Copy + Drop + Send + 'static>(
    rt: H,
    alloc: Global,
    schema: &Schema,
) -> Result<bool, AllocError> {
    let mut sink = csv_sink(rt, alloc, output(alloc, &[])?, schema, true, 2)?;
    let end = end_with_sender(alloc, &mut sink, schema)?;
    let told = sink.into_writer().ok_or(AllocError)?.into_output();
    is_written(end, told.bytes(), b"t\na\nc\nb\nd\n")
}

#[test]
fn memory_for_a_sink_with_a_sender(rt: HostRuntime) -> Result<(), Fail> {
    let schema = texts(rt.alloc())?;
    hold(do_both_write(rt, rt.alloc(), &schema))
}
