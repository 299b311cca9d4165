//! The ways by which chunks come to a writer.

ghost use Rattle.std.specs.Prelude.{◌≡◌, ℕ, IsErrOf};
ghost use Rattle.pipe_files_sink.specs.Telling.{TellsSince};
ghost use Rattle.pipe_writers.specs.declared.write_error.WriteError.TheVariants as write_error;

use crate::guarded_core::GuardedCore;
use crossbeam_channel::{Receiver, SendError, Sender};
use pipe_columns::{DataChunk, SinkResult};
use pipe_writers::{SinkWriter, WriteError};
use std::alloc::{AllocError, Global};
use std::sync::Wait;

/// What a writer is told.
#[derive(Drop)]
pub(crate) enum Message {
    Chunk(DataChunk),
    /// That the writing is to be finished.
    Finish,
    /// That it stays unfinished.
    Leave,
}

/// The way by which chunks come to a writer.
#[derive(Drop)]
pub(crate) enum ChunkWay {
    /// To whom writes.
    Open(Sender<Message, Global>),
    /// Nobody writes any more.
    Ended,
}

/// Does what a message says, and tells whether the writing goes on.
fn obey<W: SinkWriter>(core: &mut GuardedCore<W>, message: Message) -> bool
    ensures { (n : ℕ) → TellsSince n (W.faults core.old.core.writer) core.old.fault
        → TellsSince n (W.faults core.new.core.writer) core.new.fault }
{
    match message {
        Message::Chunk(chunk) => core.take(chunk) == SinkResult::CanHaveMoreInput,
        Message::Finish => {
            core.finish();
            false
        }
        Message::Leave => false,
    }
}

/// Writes what messages say, until one ends the writing, it is refused, or nobody sends any more.
pub(crate) fn write_messages<W: SinkWriter, H: Wait + Copy>(
    rt: H,
    from: Receiver<Message, Global>,
    core: GuardedCore<W>,
) -> GuardedCore<W>
    ensures { (n : ℕ) → TellsSince n (W.faults core.core.writer) core.fault
        → TellsSince n (W.faults result.core.writer) result.fault }
{
    let mut core = core;
    for _turn in rt.forever() {
        let Ok(message) = from.recv(&rt) else {
            return core;
        };
        if !obey(&mut core, message) {
            return core;
        }
    }
    unreachable!()
}

/// Writes what was sent so far, and tells whether the writing goes on.
pub(crate) fn write_sent<W: SinkWriter, H: Wait>(
    rt: &H,
    from: &Receiver<Message, Global>,
    core: &mut GuardedCore<W>,
) -> bool
    ensures { (n : ℕ) → TellsSince n (W.faults core.old.core.writer) core.old.fault
        → TellsSince n (W.faults core.new.core.writer) core.new.fault }
{
    for _turn in rt.forever() {
        let Ok(message) = from.try_recv(rt) else {
            return true;
        };
        if !obey(core, message) {
            return false;
        }
    }
    unreachable!()
}

/// Sends a chunk to who writes.
fn send_chunk<H: Wait>(
    rt: &H,
    to: &Sender<Message, Global>,
    chunk: DataChunk,
) -> Result<SinkResult, WriteError>
    ensures { ¬ IsErrOf result write_error.Output }
{
    match to.send(rt, Message::Chunk(chunk)) {
        Ok(()) => Ok(SinkResult::CanHaveMoreInput),
        Err(SendError::Disconnected(_)) => Ok(SinkResult::Finished),
        Err(SendError::OutOfMemory(_)) => Err(WriteError::Memory),
    }
}

impl ChunkWay {
    /// Hands a chunk over.
    pub(crate) fn hand_over<H: Wait>(
        &self,
        rt: &H,
        chunk: DataChunk,
    ) -> Result<SinkResult, WriteError>
        ensures { ¬ IsErrOf result write_error.Output }
    {
        match self {
            ChunkWay::Open(to) => send_chunk(rt, to, chunk),
            ChunkWay::Ended => Ok(SinkResult::Finished),
        }
    }

    /// Another way to the same writer.
    pub(crate) fn split(&self) -> Result<ChunkWay, AllocError> {
        match self {
            ChunkWay::Open(to) => Ok(ChunkWay::Open(to.clone()?)),
            ChunkWay::Ended => Ok(ChunkWay::Ended),
        }
    }
}
