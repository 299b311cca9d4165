//! What rows cost that a `RuledFilesSink` writes.

ghost use Rattle.std.specs.Prelude.{◌≡◌, ◌≤◌, ◌∷◌, [], IfOk, IfSome, vec_capacity};

use crate::fed::{MORSELS, is_taken};
use crate::made::{Nowhere, chunks_of};
use anyhow::Context;
use pipe_columns::{DataChunk, Schema};
use pipe_writer::{RuledFilesSink, RuledSender};
use pipe_writers::{CsvBatchedWriter, copy_schema};
use std::alloc::Global;
use std::sync::Wait;
use std::thread::Threads;
use std::time::{Clock, Instant};

/// A sink of CSV and its one sender.
type Ruled<H> = (RuledFilesSink<CsvBatchedWriter<Nowhere>, H>, RuledSender<H>);

/// The one of senders.
fn one_of<H: Drop>(senders: Vec<RuledSender<H>>) -> Option<RuledSender<H>>
    ensures { IfSome result (λ s. senders.items ≡ s ∷ []) }
{
    let mut senders = senders;
    if senders.len() == 1 {
        return senders.pop();
    }
    None
}

/// A sink that took no chunk, and its one sender.
fn sink_of<H>(rt: H, alloc: Global, schema: &Schema) -> anyhow::Result<Ruled<H>>
where
    H: Threads + Wait + Copy + Send + 'static,
    ensures senders { IfOk result (λ r. r.0.senders ≡ 1) }
    ensures number { IfOk result (λ r. r.1.number ≡ 0) }
    ensures channel { IfOk result (λ r. r.1.channel ≡ r.0.channel) }
    ensures sink_fields { IfOk result (λ r. r.0.fields ≡ schema.now) }
    ensures fields { IfOk result (λ r. r.1.fields ≡ schema.now) }
{
    let fields = copy_schema(alloc, schema)?;
    let writer = CsvBatchedWriter::new(alloc, Nowhere, fields, true);
    match RuledFilesSink::new(rt, alloc, writer, true, MORSELS, 1) {
        Ok((sink, senders)) => {
            let sender = one_of(senders).context("no sender")?;
            Ok((sink, sender))
        }
        Err((wanting, _writer)) => Err(wanting.into()),
    }
}

/// Whether a sender took all chunks.
fn takes_all<H: Wait>(sender: &mut RuledSender<H>, schema: &Schema, chunks: Vec<DataChunk>) -> bool
    requires { sender.old.fields ≡ schema.now }
    ensures number { sender.new.number ≡ sender.old.number }
    ensures channel { sender.new.channel ≡ sender.old.channel }
    ensures fields { sender.new.fields ≡ sender.old.fields }
{
    let mut all = true;
    for chunk in chunks {
        if !takes(sender, schema, chunk) {
            all = false;
        }
    }
    all
}

/// Whether a sender took a chunk.
fn takes<H: Wait>(sender: &mut RuledSender<H>, schema: &Schema, chunk: DataChunk) -> bool
    requires { sender.old.fields ≡ schema.now }
    ensures number { sender.new.number ≡ sender.old.number }
    ensures channel { sender.new.channel ≡ sender.old.channel }
    ensures fields { sender.new.fields ≡ sender.old.fields }
{
    if chunk.frame.height() == 0 || !is_taken(schema, &chunk) || sender.sent() > 1 << 20 {
        return false;
    }
    match sender.sink(chunk) {
        Ok(_) => true,
        Err(_) => false,
    }
}

/// Whether a sink of one sender wrote all that this took, with room for that one.
fn ends_well<H>(
    sink: RuledFilesSink<CsvBatchedWriter<Nowhere>, H>,
    sender: RuledSender<H>,
    room: Vec<RuledSender<H>>,
) -> bool
where
    H: Threads + Wait + Copy,
    requires senders { sink.senders ≡ 1 }
    requires number { sender.number ≡ 0 }
    requires channel { sender.channel ≡ sink.channel }
    requires fields { sender.fields ≡ sink.fields }
    requires none { room.items ≡ [] }
    requires room { 1 ≤ vec_capacity room }
{
    let mut room = room;
    room.push_reserved(sender);
    sink.finalize(room).result.is_ok()
}

/// Whether a sink wrote all chunks.
fn writes_all<H>(
    rt: H,
    alloc: Global,
    schema: &Schema,
    chunks: Vec<DataChunk>,
) -> anyhow::Result<bool>
where
    H: Threads + Wait + Copy + Send + 'static,
{
    let room = Vec::with_capacity(alloc, 1)?;
    let (sink, sender) = sink_of(rt, alloc, schema)?;
    let mut sender = sender;
    let all = takes_all(&mut sender, schema, chunks);
    Ok(ends_well(sink, sender, room) && all)
}

/// What all rows cost, in nanoseconds.
pub(crate) fn ruled_time<H>(rt: H, alloc: Global, schema: &Schema) -> anyhow::Result<u128>
where
    H: Threads + Wait + Clock + Copy + Send + 'static,
{
    let chunks = chunks_of(alloc)?;
    let start = Instant::now(&rt)?;
    let all = writes_all(rt, alloc, schema, chunks)?;
    let time = start.elapsed(&rt)?.as_nanos();
    all.then_some(time).context("not all was written")
}
