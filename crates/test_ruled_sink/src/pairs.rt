//! Sinks of two senders, which threads feed side by side.

ghost use Rattle.std.specs.Prelude.{◌≡◌, ◌∷◌, ◌≤◌, [], IfOk, IfSome, vec_capacity};

use crate::sinks::{feed_all, result_of};
use pipe_columns::{DataChunk, Schema};
use pipe_io::MemoryOutput;
use pipe_writer::{RuledEnd, RuledFilesSink, RuledSender};
use pipe_writers::{CsvBatchedWriter, copy_schema};
use std::alloc::Global;
use std::sync::Wait;
use std::test::Fail;
use std::thread;
use std::thread::Threads;

/// A sink of CSV in memory.
type Sink<H> = RuledFilesSink<CsvBatchedWriter<MemoryOutput>, H>;

/// The two of senders.
fn two_of<H: Drop>(senders: Vec<RuledSender<H>>) -> Option<(RuledSender<H>, RuledSender<H>)>
    ensures { IfSome result (λ s. senders.items ≡ s.0 ∷ s.1 ∷ []) }
{
    let mut senders = senders;
    if senders.len() != 2 {
        return None;
    }
    let second = senders.pop()?;
    let first = senders.pop()?;
    Some((first, second))
}

/// A sink of CSV without names, chunk by chunk in the order of arrival, and its two senders.
fn two_senders<H>(
    rt: H,
    alloc: Global,
    output: MemoryOutput,
    schema: &Schema,
) -> Result<(Sink<H>, RuledSender<H>, RuledSender<H>), Fail>
where
    H: Threads + Wait + Copy + Send + 'static,
    ensures senders { IfOk result (λ r. r.0.senders ≡ 2) }
    ensures numbers { IfOk result (λ r. (r.1.number ≡ 0) × (r.2.number ≡ 1)) }
    ensures channel { IfOk result (λ r. (r.1.channel ≡ r.0.channel) × (r.2.channel ≡ r.0.channel)) }
    ensures sink_fields { IfOk result (λ r. r.0.fields ≡ schema.now) }
    ensures fields { IfOk result (λ r. (r.1.fields ≡ schema.now) × (r.2.fields ≡ schema.now)) }
{
    let fields = copy_schema(alloc, schema)?;
    let writer = CsvBatchedWriter::new(alloc, output, fields, false);
    match RuledFilesSink::new(rt, alloc, writer, false, 1, 2) {
        Ok((sink, senders)) => match two_of(senders) {
            Some((first, second)) => Ok((sink, first, second)),
            None => Err("no senders".into()),
        },
        Err(_) => Err("no memory".into()),
    }
}

/// A sender that was fed chunks.
fn fed<H: Wait>(sender: RuledSender<H>, schema: &Schema, chunks: Vec<DataChunk>) -> RuledSender<H>
    requires { sender.fields ≡ schema.now }
    ensures number { result.number ≡ sender.number }
    ensures channel { result.channel ≡ sender.channel }
    ensures fields { result.fields ≡ sender.fields }
{
    let mut sender = sender;
    feed_all(&mut sender, schema, chunks);
    sender
}

/// Two senders that were fed chunks, each in a thread of its own.
fn both_fed<R: Threads, H: Wait + Drop + Send>(
    rt: &R,
    schema: &Schema,
    first: RuledSender<H>,
    chunks: Vec<DataChunk>,
    second: RuledSender<H>,
    others: Vec<DataChunk>,
) -> (RuledSender<H>, RuledSender<H>)
    requires first { first.fields ≡ schema.now }
    requires second { second.fields ≡ schema.now }
    ensures numbers { (result.0.number ≡ first.number) × (result.1.number ≡ second.number) }
    ensures channel { (result.0.channel ≡ first.channel) × (result.1.channel ≡ second.channel) }
    ensures fields { (result.0.fields ≡ first.fields) × (result.1.fields ≡ second.fields) }
{
    thread::join(
        rt,
        move || fed(first, schema, chunks),
        move || fed(second, schema, others),
    )
}

/// How a sink of two senders ends, with room for these.
fn ended<H>(
    sink: Sink<H>,
    first: RuledSender<H>,
    second: RuledSender<H>,
    room: Vec<RuledSender<H>>,
) -> RuledEnd<CsvBatchedWriter<MemoryOutput>>
where
    H: Threads + Wait + Copy,
    requires senders { sink.senders ≡ 2 }
    requires numbers { (first.number ≡ 0) × (second.number ≡ 1) }
    requires channel { (first.channel ≡ sink.channel) × (second.channel ≡ sink.channel) }
    requires fields { (first.fields ≡ sink.fields) × (second.fields ≡ sink.fields) }
    requires none { room.items ≡ [] }
    requires room { 2 ≤ vec_capacity room }
{
    let mut room = room;
    room.push_reserved(first);
    room.push_reserved(second);
    sink.finalize(room)
}

/// Whether a sink of two senders ends well that were given these chunks, each in a thread of its own.
pub(crate) fn run_two<H>(
    rt: H,
    alloc: Global,
    output: MemoryOutput,
    schema: &Schema,
    chunks: Vec<DataChunk>,
    others: Vec<DataChunk>,
) -> Result<bool, Fail>
where
    H: Threads + Wait + Copy + Send + 'static,
{
    let room = Vec::with_capacity(alloc, 2)?;
    let (sink, first, second) = two_senders(rt, alloc, output, schema)?;
    let (first, second) = both_fed(&rt, schema, first, chunks, second, others);
    Ok(result_of(ended(sink, first, second, room)).is_ok())
}
