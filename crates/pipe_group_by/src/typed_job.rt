//! What a thread does in a round of typed sinks.

ghost use Rattle.std.specs.Prelude.{◌≡◌, ◌++◌, IfOk, OnOk, false, map};
ghost use Rattle.pipe_sinks.specs.Runs.{with_taken};
ghost use Rattle.pipe_group_by.specs.Jobs.{MayWork};
ghost use Rattle.pipe_group_by.specs.Positions.{turns_of};

use pipe_columns::DataChunk;
use pipe_sinks::{PausedSink, SinkRun};
use std::alloc::AllocError;
use std::marker::Model;
use std::snapshot::Snapshot;

/// A worker's sink, and whether it was refused a chunk. Unused bytes on both sides keep its state on
/// other cache lines than its neighbours'.
#[derive(Drop)]
#[repr(C)]
pub(crate) struct TypedJob<'a> {
    before: [u64; 8],
    sink: SinkRun<'a>,
    refused: bool,
    after: [u64; 8],
}

impl<'a> Model for TypedJob<'a> {
    ghost use Rattle.pipe_group_by.specs.Jobs.{SinkJobSeen};

    ghost Value = { SinkJobSeen };

    ghost view = { λ j. record { sink = j.sink; refused = j.refused } };
}

/// A sink takes a worker's turns of a round, whose chunks follow those before.
fn take_turns(
    sink: &mut SinkRun<'_>,
    worker: usize,
    workers: usize,
    before: &[Snapshot<DataChunk>],
    chunks: &[DataChunk],
) -> Result<(), AllocError>
    requires { MayWork workers worker (map (λ c. c.value) before.now) chunks.now sink.old }
    ensures ok { OnOk result (sink.new ≡ with_taken
        (turns_of workers worker (map (λ c. c.value) before.now ++ chunks.now)) sink.old) }
{
    for number in 0..chunks.len() {
        let chunk = &chunks[number];
        if chunk.chunk_index as usize % workers == worker {
            sink.take(None, chunk)?;
        }
    }
    Ok(())
}

impl<'a> TypedJob<'a> {
    /// A sink that was refused nothing.
    pub(crate) fn new(sink: SinkRun<'a>) -> TypedJob<'a>
        ensures { result ≡ record { sink = sink.entry; refused = false } }
    {
        TypedJob {
            before: [0; 8],
            sink,
            refused: false,
            after: [0; 8],
        }
    }

    /// The sink takes a worker's turns of a round.
    pub(crate) fn work(
        &mut self,
        worker: usize,
        workers: usize,
        before: &[Snapshot<DataChunk>],
        chunks: &[DataChunk],
    )
        requires { MayWork workers worker (map (λ c. c.value) before.now) chunks.now
            self.old.sink }
        ensures { self.new.refused ≡ false → self.new.sink ≡ with_taken
            (turns_of workers worker (map (λ c. c.value) before.now ++ chunks.now))
            self.old.sink }
    {
        self.refused = take_turns(&mut self.sink, worker, workers, before, chunks).is_err();
    }

    /// The sink at rest, unless it was refused a chunk.
    pub(crate) fn rest(self) -> Result<PausedSink, AllocError>
        ensures sink { IfOk result (λ s. s ≡ self.entry.sink) }
        ensures gone_on { OnOk result (self.entry.refused ≡ false) }
    {
        let TypedJob { sink, refused, .. } = self;
        if refused {
            return Err(AllocError);
        }
        Ok(sink.pause())
    }
}
