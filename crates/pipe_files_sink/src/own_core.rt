//! A core that its sink runs itself, where no thread can be had.

ghost use Rattle.std.specs.Prelude.{◌≡◌, ℕ};
ghost use Rattle.pipe_files_sink.specs.Telling.{TellsSince};

use crate::chunk_way::{Message, write_sent};
use crate::guarded_core::GuardedCore;
use crossbeam_channel::Receiver;
use pipe_columns::{DataChunk, SinkResult};
use pipe_writers::SinkWriter;
use std::alloc::Global;
use std::sync::Wait;

/// A core, and what other ends of the sink send: it waits here until the sink is called.
#[derive(Drop)]
pub(crate) struct OwnCore<W: SinkWriter + Drop> {
    core: GuardedCore<W>,
    from: Option<Receiver<Message, Global>>,
}

impl<W: SinkWriter + Drop> OwnCore<W> {
    pub(crate) fn new(core: GuardedCore<W>, from: Receiver<Message, Global>) -> OwnCore<W>
        ensures { result.core ≡ core }
    {
        OwnCore {
            core,
            from: Some(from),
        }
    }

    /// Writes what the other ends sent so far. Once the writing has ended, they send no more.
    fn write_sent<H: Wait>(&mut self, rt: &H)
        ensures { (n : ℕ) → TellsSince n (W.faults self.old.core.core.writer) self.old.core.fault
            → TellsSince n (W.faults self.new.core.core.writer) self.new.core.fault }
    {
        let Some(from) = self.from.take() else {
            return;
        };
        if write_sent(rt, &from, &mut self.core) {
            self.from = Some(from);
        }
    }

    /// Takes a chunk, behind what the other ends sent.
    pub(crate) fn take<H: Wait>(&mut self, rt: &H, chunk: DataChunk) -> SinkResult
        ensures { (n : ℕ) → TellsSince n (W.faults self.old.core.core.writer) self.old.core.fault
            → TellsSince n (W.faults self.new.core.core.writer) self.new.core.fault }
    {
        self.write_sent(rt);
        let result = self.core.take(chunk);
        if result == SinkResult::Finished {
            self.from = None;
        }
        result
    }

    /// The core, finished behind what the other ends sent. From then on they send no more.
    pub(crate) fn into_finished<H: Wait>(self, rt: &H) -> GuardedCore<W>
        ensures { (n : ℕ) → TellsSince n (W.faults self.core.core.writer) self.core.fault
            → TellsSince n (W.faults result.core.writer) result.fault }
    {
        let mut own = self;
        own.write_sent(rt);
        let OwnCore { core, from } = own;
        drop(from);
        let mut core = core;
        core.finish();
        core
    }
}
