//! Sinks of tests, what they are fed, and how they end.

ghost use Rattle.std.specs.Prelude.{◌≡◌, ◌≢◌, ◌∷◌, ◌<◌, ◌≤◌, [], IfOk, IfSome, IsTrue, vec_capacity};
ghost use Rattle.pipe_files_sink.specs.Joined.{IsWritable};

use pipe_columns::{DataChunk, Schema};
use pipe_io::{MemoryOutput, Output};
use pipe_writer::{RuledEnd, RuledFilesSink, RuledSender};
use pipe_writers::{CsvBatchedWriter, SinkWriter, WriteError, copy_schema};
use std::alloc::Global;
use std::sync::Wait;
use std::test::Fail;
use std::thread::Threads;

/// A sink of CSV and its one sender.
type Ruled<O, H> = (RuledFilesSink<CsvBatchedWriter<O>, H>, RuledSender<H>);

/// The one of senders.
fn one_of<H: Drop>(senders: Vec<RuledSender<H>>) -> Option<RuledSender<H>>
    ensures { IfSome result (λ s. senders.items ≡ s ∷ []) }
{
    let mut senders = senders;
    if senders.len() == 1 {
        return senders.pop();
    }
    None
}

/// A sink of CSV with the names in front, in pieces of one chunk, whose thread has such a stack, and its one
/// sender.
pub(crate) fn one_sender<O, H>(
    rt: H,
    alloc: Global,
    output: O,
    schema: &Schema,
    stack_size: Option<usize>,
) -> Result<Ruled<O, H>, Fail>
where
    O: Output + Drop + Send + 'static,
    H: Threads + Wait + Copy + Send + 'static,
    ensures senders { IfOk result (λ r. r.0.senders ≡ 1) }
    ensures number { IfOk result (λ r. r.1.number ≡ 0) }
    ensures channel { IfOk result (λ r. r.1.channel ≡ r.0.channel) }
    ensures sink_fields { IfOk result (λ r. r.0.fields ≡ schema.now) }
    ensures fields { IfOk result (λ r. r.1.fields ≡ schema.now) }
{
    let fields = copy_schema(alloc, schema)?;
    let writer = CsvBatchedWriter::new(alloc, output, fields, true);
    match RuledFilesSink::with_stack(rt, alloc, writer, true, 1, 1, stack_size) {
        Ok((sink, senders)) => match one_of(senders) {
            Some(sender) => Ok((sink, sender)),
            None => Err("no sender".into()),
        },
        Err(_) => Err("no memory".into()),
    }
}

/// Whether a chunk has rows, fits a schema, and can be joined with others.
fn is_taken(schema: &Schema, chunk: &DataChunk) -> bool
    ensures some { IsTrue result → chunk.now.frame.height ≢ 0 }
    ensures writable { IsTrue result → IsWritable schema.now chunk.now.frame }
{
    chunk.frame.height() != 0 && chunk.frame.height() <= 1 << 20 && chunk.frame.fits(schema)
}

/// Whether a sender took a chunk.
fn feed<H: Wait>(sender: &mut RuledSender<H>, schema: &Schema, chunk: DataChunk) -> bool
    requires { sender.old.fields ≡ schema.now }
    ensures number { sender.new.number ≡ sender.old.number }
    ensures channel { sender.new.channel ≡ sender.old.channel }
    ensures fields { sender.new.fields ≡ sender.old.fields }
{
    if !is_taken(schema, &chunk) || sender.sent() > 1 << 20 {
        return false;
    }
    match sender.sink(chunk) {
        Ok(_) => true,
        Err(_) => false,
    }
}

/// Whether a sender took all chunks.
pub(crate) fn feed_all<H: Wait>(
    sender: &mut RuledSender<H>,
    schema: &Schema,
    chunks: Vec<DataChunk>,
) -> bool
    requires { sender.old.fields ≡ schema.now }
    ensures number { sender.new.number ≡ sender.old.number }
    ensures channel { sender.new.channel ≡ sender.old.channel }
    ensures fields { sender.new.fields ≡ sender.old.fields }
{
    let mut all = true;
    for chunk in chunks {
        if !feed(sender, schema, chunk) {
            all = false;
        }
    }
    all
}

/// How a sink of one sender ends, with room for that one.
pub(crate) fn ended<W, H>(
    sink: RuledFilesSink<W, H>,
    sender: RuledSender<H>,
    room: Vec<RuledSender<H>>,
) -> RuledEnd<W>
where
    W: SinkWriter + Drop,
    H: Threads + Wait + Copy,
    requires senders { sink.senders ≡ 1 }
    requires number { sender.number ≡ 0 }
    requires channel { sender.channel ≡ sink.channel }
    requires fields { sender.fields ≡ sink.fields }
    requires none { room.items ≡ [] }
    requires room { 1 ≤ vec_capacity room }
{
    let mut room = room;
    room.push_reserved(sender);
    sink.finalize(room)
}

/// How the writing of a sink ended.
pub(crate) fn result_of<W: Drop>(end: RuledEnd<W>) -> Result<(), WriteError> {
    let RuledEnd {
        arrivals: _,
        result,
        writer: _,
    } = end;
    result
}

/// How the writing of a sink of one sender ends that was given these chunks.
pub(crate) fn run_one<H>(
    rt: H,
    alloc: Global,
    output: MemoryOutput,
    schema: &Schema,
    chunks: Vec<DataChunk>,
) -> Result<Result<(), WriteError>, Fail>
where
    H: Threads + Wait + Copy + Send + 'static,
{
    let room = Vec::with_capacity(alloc, 1)?;
    let (sink, sender) = one_sender(rt, alloc, output, schema, None)?;
    let mut sender = sender;
    feed_all(&mut sender, schema, chunks);
    Ok(result_of(ended(sink, sender, room)))
}

/// Fails a test where what it asks isn't so.
pub(crate) fn hold(answer: Result<bool, Fail>) -> Result<(), Fail> {
    match answer {
        Ok(true) => Ok(()),
        Ok(false) => Err("it isn't so".into()),
        Err(fail) => Err(fail),
    }
}
