//! What a writer does with the chunks that come to it.

ghost use Rattle.std.specs.Prelude.{◌≡◌, ◌+◌, ◌++◌, ◌∷◌, ◌<◌, ◌≤◌, ◌^◌, [], Bool, IsErrOf, List, None, OnOk, Some, ℕ, false, length};
ghost use Rattle.std.specs.List.{AllByRecursion};
ghost use Rattle.pipe_files_sink.specs.Joined.{IsWritable};
ghost use Rattle.pipe_writer.specs.Sent.{numbered};
ghost use Rattle.pipe_writer.specs.Wrote.{HasEnded, Wrote};
ghost use Rattle.pipe_writer.specs.declared.message.SentChunk.{SentChunk};
ghost use Rattle.pipe_writers.specs.Writers.{IsFresh};
ghost use Rattle.pipe_writers.specs.declared.write_error.WriteError.TheVariants as write_error;

use crate::arrivals::{Arrival, Arrivals};
use crate::message::SentChunk;
use crate::rest::Rest;
use crate::ruled_end::RuledEnd;
use pipe_files_sink::{GuardedCore, WriterCore};
use pipe_writers::{SinkWriter, WriteError};
use std::alloc::Global;

/// A core, and what it took.
#[derive(Drop)]
pub(crate) struct Writing<W: SinkWriter> {
    core: GuardedCore<W>,
    arrivals: Arrivals,
    /// Whether memory for an arrival was wanting.
    wanting: bool,
}

/// How a writing went, for whose arrivals memory may have been wanting.
fn outcome<W: SinkWriter>(wanting: bool, core: &GuardedCore<W>) -> Result<(), WriteError>
    ensures ok { OnOk result ((wanting ≡ false) × (core.now.fault ≡ None)) }
    ensures output { IsErrOf result write_error.Output → core.now.fault ≡ Some write_error.Output }
{
    if wanting {
        return Err(WriteError::Memory);
    }
    core.result()
}

impl<W: SinkWriter> Writing<W> {
    /// One to which nothing came, for a writer to which no call was made.
    pub(crate) fn new(
        alloc: Global,
        writer: W,
        maintain_order: bool,
        morsels_per_sink: usize,
    ) -> Writing<W>
        requires fresh { IsFresh (W.calls writer) }
        requires some { 0 < morsels_per_sink }
        requires few { morsels_per_sink ≤ 4096 }
        ensures wrote { Wrote writer maintain_order
            morsels_per_sink result [] }
    {
        Writing {
            core: GuardedCore::new(WriterCore::new(
                alloc,
                writer,
                maintain_order,
                morsels_per_sink,
            )),
            arrivals: Vec::new(alloc),
            wanting: false,
        }
    }

    /// Takes a chunk, unless an earlier one was refused.
    pub(crate) fn put(&mut self, sent: SentChunk)
        requires { IsWritable (W.fields (W.format self.old.core.core.writer)) sent.chunk.frame }
        ensures format { W.format self.new.core.core.writer ≡ W.format self.old.core.core.writer }
        ensures wrote { (made : W) → (maintain : Bool) → (morsels : ℕ) → (came : List SentChunk)
            → Wrote made maintain morsels self.old came
            → Wrote made maintain morsels self.new
            (came ++ sent ∷ []) }
    {
        let SentChunk {
            sender,
            number,
            chunk,
        } = sent;
        if self.wanting || self.core.ended() {
            return;
        }
        match self.arrivals.push(Arrival { sender, number }) {
            Ok(()) => {
                self.core.take(chunk);
            }
            Err(_) => self.wanting = true,
        }
    }

    /// Takes what a sender kept.
    pub(crate) fn put_rest(&mut self, rest: Rest)
        requires writable { AllByRecursion (λ c. IsWritable (W.fields
            (W.format self.old.core.core.writer)) c.frame) rest.chunks.items }
        requires few { rest.first + length rest.chunks.items < 2 ^ 64 }
        ensures format { W.format self.new.core.core.writer ≡ W.format self.old.core.core.writer }
        ensures wrote { (made : W) → (maintain : Bool) → (morsels : ℕ) → (came : List SentChunk)
            → Wrote made maintain morsels self.old came
            → Wrote made maintain morsels self.new
            (came ++ numbered rest.sender rest.first rest.chunks.items) }
    {
        let Rest {
            sender,
            first,
            chunks,
        } = rest;
        let mut number = first;
        for chunk in chunks {
            self.put(SentChunk {
                sender,
                number,
                chunk,
            });
            number += 1;
        }
    }

    /// Writes what is left, and says how the writing went.
    pub(crate) fn into_end(self) -> RuledEnd<W>
        ensures { (made : W) → (maintain : Bool) → (morsels : ℕ) → (came : List SentChunk)
            → Wrote made maintain morsels self came
            → HasEnded made maintain morsels self result came }
    {
        let Writing {
            core,
            arrivals,
            wanting,
        } = self;
        let mut core = core;
        core.finish();
        let result = outcome(wanting, &core);
        RuledEnd {
            arrivals,
            result,
            writer: core.into_writer(),
        }
    }
}
