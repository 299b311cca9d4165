//! A core for chunks of which nothing is known.

ghost use Rattle.std.specs.Prelude.{◌≡◌, ◌∷◌, ◌++◌, ◌↔◌, List, ℕ, None, Some, [], false, true, is_some, IfErr, IsErrOf, IsTrue};
ghost use Rattle.pipe_columns.specs.declared.data_chunk.DataChunk.{DataChunk};
ghost use Rattle.pipe_columns.specs.declared.sink.SinkResult.TheVariants as sink_result;
ghost use Rattle.pipe_files_sink.specs.Core.{HasTaken};
ghost use Rattle.pipe_files_sink.specs.Telling.{TellsSince};
ghost use Rattle.pipe_files_sink.specs.Joined.{IsWritable};
ghost use Rattle.pipe_writers.specs.WriteOrder.{rows_of_chunks, write_order};
ghost use Rattle.pipe_writers.specs.Writers.{IsOpen, TellsAfter, TellsFront};
ghost use Rattle.pipe_writers.specs.declared.write_error.WriteError.TheVariants as write_error;

use crate::writer_core::WriterCore;
use pipe_columns::{DataChunk, DataFrame, SinkResult};
use pipe_writers::{SinkWriter, WriteError};

/// The rows of a frame are fewer than so many.
const ROW_LIMIT: usize = 1 << 62;

/// A core that tests each chunk before it takes it, and that keeps how the writing ended.
#[derive(Drop)]
pub struct GuardedCore<W: SinkWriter> {
    core: WriterCore<W>,
    ended: bool,
    fault: Option<WriteError>,
    ghost open: { ended ≡ false → IsOpen core.calls },
    ghost unrefused: { ended ≡ false → fault ≡ None },
}

/// Whether a writer takes a frame.
fn is_writable<W: SinkWriter>(writer: &W, frame: &DataFrame) -> bool
    ensures { IsTrue result ↔ IsWritable (W.fields (W.format writer.now)) frame.now }
{
    frame.fits(writer.schema()) && frame.height() < ROW_LIMIT
}

impl<W: SinkWriter> GuardedCore<W> {
    /// A core that takes calls.
    pub fn new(core: WriterCore<W>) -> GuardedCore<W>
        requires { IsOpen core.calls }
        ensures core { result.core ≡ core }
        ensures open { result.ended ≡ false }
        ensures fault { result.fault ≡ None }
    {
        GuardedCore {
            core,
            ended: false,
            fault: None,
        }
    }

    /// Takes a chunk that fits, and drops one that doesn't. Once the writing has ended it takes
    /// none.
    #[tactic(auto, using(crate::proofs::TellsFacts::tells_on, crate::proofs::TellsFacts::tells_fault))]
    pub fn take(&mut self, chunk: DataChunk) -> SinkResult
        ensures answer { (result ≡ sink_result.Finished) ↔ IsTrue self.new.ended }
        ensures ended { IsTrue self.old.ended → self.new ≡ self.old }
        ensures dropped { ¬ IsWritable (W.fields (W.format self.old.core.writer)) chunk.frame
            → self.new ≡ self.old }
        ensures taken { self.new.ended ≡ false
            → IsWritable (W.fields (W.format self.old.core.writer)) chunk.frame
            → (chunks : List DataChunk) → (since : List ℕ)
            → HasTaken (W.stands self.old.core.writer) self.old.core chunks since
            → HasTaken (W.stands self.new.core.writer) self.new.core (chunks ++ (chunk ∷ []))
            since }
        ensures front { self.old.ended ≡ false
            → IsWritable (W.fields (W.format self.old.core.writer)) chunk.frame
            → (chunks : List DataChunk) → (since : List ℕ)
            → HasTaken (W.stands self.old.core.writer) self.old.core chunks since
            → TellsFront (W.told self.new.core.writer) since
            (W.text (W.format self.old.core.writer) (rows_of_chunks (write_order
            (chunks ++ (chunk ∷ [])) self.old.core.morsels self.old.core.maintain_order))) }
        ensures refused { self.old.ended ≡ false → IsTrue self.new.ended
            → is_some self.new.fault ≡ true }
        ensures format { W.format self.new.core.writer ≡ W.format self.old.core.writer }
        ensures kept { (self.new.core.maintain_order ≡ self.old.core.maintain_order)
            × (self.new.core.morsels ≡ self.old.core.morsels) }
        ensures tells { is_some (W.told self.new.core.writer)
            ≡ is_some (W.told self.old.core.writer) }
        ensures since { (n : ℕ) → TellsSince n (W.faults self.old.core.writer) self.old.fault
            → TellsSince n (W.faults self.new.core.writer) self.new.fault }
    {
        if self.ended {
            return SinkResult::Finished;
        }
        if !is_writable(self.core.writer(), &chunk.frame) {
            return SinkResult::CanHaveMoreInput;
        }
        match self.core.add(chunk) {
            Ok(()) => SinkResult::CanHaveMoreInput,
            Err(fault) => {
                self.ended = true;
                self.fault = Some(fault);
                SinkResult::Finished
            }
        }
    }

    /// Finishes the writing, unless it has ended.
    #[tactic(auto, using(crate::proofs::TellsFacts::tells_on, crate::proofs::TellsFacts::tells_fault))]
    pub fn finish(&mut self)
        ensures ended { IsTrue self.new.ended }
        ensures already { IsTrue self.old.ended → self.new ≡ self.old }
        ensures whole { self.old.ended ≡ false → self.new.fault ≡ None
            → (chunks : List DataChunk) → (since : List ℕ)
            → HasTaken (W.stands self.old.core.writer) self.old.core chunks since
            → TellsAfter (W.told self.new.core.writer) since
            (W.text (W.format self.old.core.writer) (rows_of_chunks
            (write_order chunks self.old.core.morsels self.old.core.maintain_order))) }
        ensures front { self.old.ended ≡ false → (chunks : List DataChunk) → (since : List ℕ)
            → HasTaken (W.stands self.old.core.writer) self.old.core chunks since
            → TellsFront (W.told self.new.core.writer) since
            (W.text (W.format self.old.core.writer) (rows_of_chunks
            (write_order chunks self.old.core.morsels self.old.core.maintain_order))) }
        ensures tells { is_some (W.told self.new.core.writer)
            ≡ is_some (W.told self.old.core.writer) }
        ensures since { (n : ℕ) → TellsSince n (W.faults self.old.core.writer) self.old.fault
            → TellsSince n (W.faults self.new.core.writer) self.new.fault }
    {
        if self.ended {
            return;
        }
        self.ended = true;
        if let Err(fault) = self.core.finish() {
            self.fault = Some(fault);
        }
    }

    /// Whether the writing has ended.
    pub fn ended(&self) -> bool
        ensures { result ≡ self.now.ended }
    {
        self.ended
    }

    /// How the writing went so far.
    pub fn result(&self) -> Result<(), WriteError>
        ensures ok { (result ≡ Ok tt) ↔ (self.now.fault ≡ None) }
        ensures fault { IfErr result (λ e. self.now.fault ≡ Some e) }
        ensures output { IsErrOf result write_error.Output
            → self.now.fault ≡ Some write_error.Output }
    {
        match &self.fault {
            None => Ok(()),
            Some(WriteError::Output) => Err(WriteError::Output),
            Some(WriteError::Memory) => Err(WriteError::Memory),
        }
    }

    /// The writer, without what waits.
    pub fn into_writer(self) -> W
        ensures { result ≡ self.core.writer }
    {
        let GuardedCore { core, .. } = self;
        core.into_writer()
    }
}
