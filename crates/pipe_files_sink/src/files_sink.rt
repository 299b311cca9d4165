//! A sink that writes what it takes beside its caller.

ghost use Rattle.std.specs.Prelude.{◌≡◌, ◌<◌, ◌≤◌, [], List, None, IfOk, IfSome, IsErrOf, IsTrue, OnOk, codes, is_some};
ghost use Rattle.pipe_columns.specs.Chunks.{frame_given};
ghost use Rattle.pipe_columns.specs.declared.data_chunk.DataChunk.{DataChunk};
ghost use Rattle.pipe_columns.specs.declared.schema.Field.{Field};
ghost use Rattle.pipe_files_sink.specs.Ended.{HasFailed};
ghost use Rattle.pipe_files_sink.specs.Telling.{TellsSince};
ghost use Rattle.pipe_files_sink.specs.Joined.{IsWritable};
ghost use Rattle.pipe_writers.specs.Writers.{IsFresh};
ghost use Rattle.pipe_writers.specs.declared.write_error.WriteError.TheVariants as write_error;

use crate::chunk_way::{ChunkWay, Message, write_messages};
use crate::files_sender::FilesSender;
use crate::guarded_core::GuardedCore;
use crate::own_core::OwnCore;
use crate::writer_core::WriterCore;
use crossbeam_channel::{bounded, unbounded};
use pipe_columns::{DataChunk, DataFrame, FinalizedSink, Schema, Sink, SinkResult};
use pipe_writers::{SinkWriter, WriteError, copy_schema};
use std::alloc::{AllocError, Global};
use std::marker::Model;
use std::snapshot::Snapshot;
use std::sync::Wait;
use std::thread::{Promise, PromisedHandle, SpawnError, Threads};
use std::{mem, thread};

/// What a thread's core tells: of a failed output only where the count of its faults rose since the
/// writer was this.
#[derive(Drop)]
struct SinceWriter<W> {
    writer: Snapshot<W>,
}

impl<W: SinkWriter + Drop> Promise<GuardedCore<W>> for SinceWriter<W> {
    ghost kept_by = { λ p core.
        TellsSince (W.faults p.writer.value) (W.faults core.core.writer) core.fault };
}

/// A thread that writes.
type WriterThread<W> = PromisedHandle<GuardedCore<W>, SinceWriter<W>>;

/// Writes chunks in a thread of its own, or in its caller where no thread can be had. The runtime
/// handle and the writer go into that thread, so they borrow nothing. A sink that is dropped before
/// `finalize` leaves the writing unfinished, and waits until its thread has written what it took.
/// Contracts see the fields, the writer as the sink was made, and the writer once it has ended.
pub struct FilesSink<W: SinkWriter + Drop, H: Threads + Wait + Copy> {
    rt: H,
    alloc: Global,
    schema: Schema,
    made_of: Snapshot<W>,
    way: ChunkWay,
    thread: Option<WriterThread<W>>,
    own: Option<OwnCore<W>>,
    ended: Option<GuardedCore<W>>,
}

impl<W: SinkWriter + Drop, H: Threads + Wait + Copy> Model for FilesSink<W, H> {
    ghost use Rattle.std.specs.Prelude.{◌≡◌, IfSome, option_map};
    ghost use Rattle.pipe_files_sink.specs.Ended.{FilesSeen};
    ghost use Rattle.pipe_files_sink.specs.Telling.{TellsSince};

    ghost Value = { FilesSeen W };

    ghost view = { λ s. record {
      schema = s.schema;
      made_of = s.made_of.value;
      ended = option_map (λ core. core.core.writer) s.ended;
    } };

    ghost invariant = { λ s.
        IfSome s.thread (λ t. t.promise.writer.value ≡ s.made_of.value)
        × IfSome s.own (λ own. TellsSince (W.faults s.made_of.value)
        (W.faults own.core.core.writer) own.core.fault)
        × IfSome s.ended (λ core. TellsSince (W.faults s.made_of.value)
        (W.faults core.core.writer) core.fault) };
}
/// Leaves the writing unfinished, and waits for the thread's end.
fn leave<W: SinkWriter + Drop, H: Threads + Wait>(
    rt: &H,
    way: ChunkWay,
    thread: Option<WriterThread<W>>,
) {
    if let ChunkWay::Open(to) = way {
        let _ = to.send(rt, Message::Leave);
    }
    if let Some(thread) = thread {
        let _core = thread.join(rt);
    }
}

impl<W, H> FilesSink<W, H>
where
    W: SinkWriter + Drop + Send + 'static,
    H: Threads + Wait + Copy + Send + 'static,
{
    /// A sink that took no chunk, for a writer to which no call was made.
    #[tactic(auto, using(crate::proofs::TellsFacts::tells_fresh))]
    pub fn new(
        rt: H,
        alloc: Global,
        writer: W,
        maintain_order: bool,
        morsels_per_sink: usize,
    ) -> Result<FilesSink<W, H>, AllocError>
        requires fresh { IsFresh (W.calls writer) }
        requires some { 0 < morsels_per_sink }
        requires few { morsels_per_sink ≤ 4096 }
        ensures schema { IfOk result (λ s. s.schema ≡ W.fields (W.format writer)) }
        ensures writer { IfOk result (λ s. s.made_of ≡ writer) }
        ensures unended { IfOk result (λ s. s.ended ≡ None) }
    {
        let schema = copy_schema(alloc, writer.schema())?;
        let made_of = Snapshot::of(&writer);
        let promise = SinceWriter {
            writer: Snapshot::of(&writer),
        };
        let core = WriterCore::new(alloc, writer, maintain_order, morsels_per_sink);
        let room = 2 * morsels_per_sink;
        FilesSink::begin(
            rt,
            alloc,
            schema,
            made_of,
            promise,
            GuardedCore::new(core),
            room,
        )
    }

    /// A sink of a core, which a thread runs where one can be had.
    fn begin(
        rt: H,
        alloc: Global,
        schema: Schema,
        made_of: Snapshot<W>,
        promise: SinceWriter<W>,
        core: GuardedCore<W>,
        room: usize,
    ) -> Result<FilesSink<W, H>, AllocError>
        requires promise { promise.writer.value ≡ made_of.value }
        requires keeps { TellsSince (W.faults promise.writer.value)
            (W.faults core.core.writer) core.fault }
        requires tells { TellsSince (W.faults made_of.value) (W.faults core.core.writer) core.fault }
        ensures schema { IfOk result (λ s. s.schema ≡ schema) }
        ensures writer { IfOk result (λ s. s.made_of ≡ made_of.value) }
        ensures unended { IfOk result (λ s. s.ended ≡ None) }
    {
        let (to, from) = bounded(alloc, room)?;
        match thread::spawn_with(&rt, promise, move || write_messages(rt, from, core)) {
            Ok(thread) => Ok(FilesSink {
                rt,
                alloc,
                schema,
                made_of,
                way: ChunkWay::Open(to),
                thread: Some(thread),
                own: None,
                ended: None,
            }),
            Err(SpawnError { value: unstarted }) => {
                drop(to);
                let core = unstarted();
                FilesSink::of_own(rt, alloc, schema, made_of, core)
            }
        }
    }
}

impl<W: SinkWriter + Drop, H: Threads + Wait + Copy> FilesSink<W, H> {
    /// A sink that runs its core itself. What other ends send waits for it.
    fn of_own(
        rt: H,
        alloc: Global,
        schema: Schema,
        made_of: Snapshot<W>,
        core: GuardedCore<W>,
    ) -> Result<FilesSink<W, H>, AllocError>
        requires { TellsSince (W.faults made_of.value) (W.faults core.core.writer) core.fault }
        ensures schema { IfOk result (λ s. s.schema ≡ schema) }
        ensures writer { IfOk result (λ s. s.made_of ≡ made_of.value) }
        ensures unended { IfOk result (λ s. s.ended ≡ None) }
    {
        let (to, from) = unbounded(alloc)?;
        let own = OwnCore::new(core, from);
        Ok(FilesSink {
            rt,
            alloc,
            schema,
            made_of,
            way: ChunkWay::Open(to),
            thread: None,
            own: Some(own),
            ended: None,
        })
    }

    /// A second way in.
    pub fn split(&self) -> Result<FilesSender<W, H>, AllocError>
        ensures { IfOk result (λ s. s.schema ≡ self.now.schema) }
    {
        let schema = copy_schema(self.alloc, &self.schema)?;
        let way = self.way.split()?;
        Ok(FilesSender::new(self.rt, schema, way))
    }

    /// The writer after `finalize`; none before it.
    pub fn into_writer(self) -> Option<W>
        ensures { result ≡ self.ended }
    {
        let mut sink = self;
        let ended = sink.ended.take()?;
        Some(ended.into_writer())
    }

    /// Ends the writing, unless it has ended, and waits for its end.
    fn end(&mut self)
        ensures schema { self.new.schema ≡ self.old.schema }
        ensures writer { self.new.made_of ≡ self.old.made_of }
        ensures again { IsTrue (is_some self.old.ended) → self.new ≡ self.old }
    {
        if self.ended.is_some() {
            return;
        }
        if let Some(own) = self.own.take() {
            self.ended = Some(own.into_finished(&self.rt));
        }
        if let ChunkWay::Open(to) = mem::replace(&mut self.way, ChunkWay::Ended) {
            let _ = to.send(&self.rt, Message::Finish);
        }
        if let Some(thread) = self.thread.take() {
            self.ended = Some(thread.join(&self.rt));
        }
    }
}

impl<W: SinkWriter + Drop, H: Threads + Wait + Copy> Sink for FilesSink<W, H> {
    type Fault = WriteError;

    ghost name = { codes "files_sink" };

    ghost takes = { λ s chunk. IsWritable s.schema chunk.frame };

    ghost stands = { λ s chunks. Unit {0} };

    ghost Purpose = { List Field };

    ghost purpose = { λ s. s.schema };

    ghost gives = { λ fields chunks frame. frame ≡ record { height = 0; columns = [] } };

    fn sink(&mut self, chunk: DataChunk) -> Result<SinkResult, WriteError>
        requires { IsWritable self.old.schema chunk.frame }
        ensures taken { OnOk result ((chunks : List DataChunk) → Unit {0} → Unit {0}) }
        ensures purpose { self.new.schema ≡ self.old.schema }
        ensures same { self.new ≡ self.old }
        ensures cause { ¬ IsErrOf result write_error.Output }
    {
        if let Some(own) = &mut self.own {
            return Ok(own.take(&self.rt, chunk));
        }
        self.way.hand_over(&self.rt, chunk)
    }

    fn finalize(&mut self) -> Result<FinalizedSink, WriteError>
        ensures given { IfOk result (λ r. (chunks : List DataChunk) → Unit {0}
            → frame_given r ≡ record { height = 0; columns = [] }) }
        ensures purpose { self.new.schema ≡ self.old.schema }
        ensures writer { self.new.made_of ≡ self.old.made_of }
        ensures ended { OnOk result (IsTrue (is_some self.new.ended)) }
        ensures cause { IsErrOf result write_error.Output
            → HasFailed W.faults self.new.made_of self.new.ended }
        ensures again { IsTrue (is_some self.old.ended) → self.new ≡ self.old }
    {
        self.end();
        match &self.ended {
            Some(core) => core.result()?,
            None => return Err(WriteError::Memory),
        }
        match DataFrame::new(0, Vec::new(self.alloc)) {
            Some(empty) => Ok(FinalizedSink::Finished(empty)),
            None => unreachable!(),
        }
    }

    fn fmt(&self) -> &str {
        "files_sink"
    }
}

impl<W: SinkWriter + Drop, H: Threads + Wait + Copy> Drop for FilesSink<W, H> {
    fn drop(self) {
        let Self {
            rt,
            alloc: _,
            schema: _schema,
            made_of: _,
            way,
            thread,
            own: _own,
            ended: _ended,
        } = self;
        leave(&rt, way, thread);
    }
}
