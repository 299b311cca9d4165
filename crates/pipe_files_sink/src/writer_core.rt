//! What a sink of files writes: chunks, piece by piece.

ghost use Rattle.std.specs.Prelude.{◌≡◌, ◌∷◌, ◌++◌, ◌<◌, ◌≤◌, ℕ, List, None, Some, [], false, true, is_err, is_some, IfOk, IsErrOf, OnErr, OnOk};
ghost use Rattle.std.specs.List.Sorted.{IsPermutation};
ghost use Rattle.pipe_columns.specs.Causes.{HasCause};
ghost use Rattle.pipe_columns.specs.declared.data_chunk.DataChunk.{DataChunk};
ghost use Rattle.pipe_files_sink.specs.Core.{CoreSeen, HasTaken};
ghost use Rattle.pipe_files_sink.specs.Joined.{HasPut, IsWritable, waits_after};
ghost use Rattle.pipe_files_sink.specs.JoinedState.{HasPutFront};
ghost use Rattle.pipe_lines.specs.Rows.{Row};
ghost use Rattle.pipe_writers.specs.WriteOrder.{rows_of_chunks, write_order, written_piece};
ghost use Rattle.pipe_writers.specs.Writers.{IsFresh, IsOpen, TellsAfter, TellsFront, after_batch, after_finish, no_writer_calls};
ghost use Rattle.pipe_writers.specs.declared.write_error.WriteError.TheVariants as write_error;

use crate::joined_writer::JoinedWriter;
use pipe_columns::DataChunk;
use pipe_writers::{SinkWriter, WriteError, WriterCalls, sort_by_number};
use std::alloc::{AllocError, Global};
use std::marker::Model;
use std::mem;

/// Writes chunks in pieces of so many in the order of their arrival, each piece by the numbers of
/// its chunks where order is maintained. Chunks without rows are none.
#[derive(Drop)]
pub struct WriterCore<W: SinkWriter> {
    alloc: Global,
    maintain_order: bool,
    morsels: usize,
    piece: Vec<DataChunk>,
    joined: JoinedWriter<W>,
    calls: WriterCalls,
}

impl<W: SinkWriter> Model for WriterCore<W> {
    ghost use Rattle.pipe_files_sink.specs.Core.{CoreSeen};
    ghost use Rattle.pipe_files_sink.specs.CoreState.{IsCore};

    ghost Value = { CoreSeen W };

    ghost view = { λ c. record {
      writer = c.joined.writer;
      maintain_order = c.maintain_order;
      morsels = c.morsels;
      piece = c.piece.items;
      least = c.joined.least;
      waiting = c.joined.waiting;
      calls = c.calls;
    } };

    ghost invariant = { λ c. IsCore (W.fields (W.format c.joined.writer)) c.morsels c.piece.items
        c.calls (W.calls c.joined.writer) };
}

/// A piece as it is written.
fn in_order(maintain_order: bool, piece: Vec<DataChunk>) -> Result<Vec<DataChunk>, AllocError>
    ensures order { IfOk result (λ v. v.items ≡ written_piece maintain_order piece.items) }
    ensures moved { IfOk result (λ v. IsPermutation piece.items v.items) }
{
    let mut piece = piece;
    if maintain_order {
        sort_by_number(&mut piece)?;
    }
    Ok(piece)
}

impl<W: SinkWriter> WriterCore<W> {
    /// A core that took no chunk, for a writer to which no call was made.
    pub fn new(
        alloc: Global,
        writer: W,
        maintain_order: bool,
        morsels_per_sink: usize,
    ) -> WriterCore<W>
        requires fresh { IsFresh (W.calls writer) }
        requires some { 0 < morsels_per_sink }
        requires few { morsels_per_sink ≤ 4096 }
        ensures made { result ≡ record {
          writer = writer;
          maintain_order = maintain_order;
          morsels = morsels_per_sink;
          piece = [];
          least = 4096;
          waiting = None;
          calls = no_writer_calls;
        } }
        ensures starts { (since : List ℕ) → W.told writer ≡ Some since
            → HasTaken (W.stands writer) result [] since }
    {
        WriterCore {
            alloc,
            maintain_order,
            morsels: morsels_per_sink,
            piece: Vec::new(alloc),
            joined: JoinedWriter::new(writer),
            calls: WriterCalls {
                begun: false,
                refused: false,
                finished: false,
            },
        }
    }

    /// Whether a call was refused. It takes no further call then.
    pub fn broken(&self) -> bool
        ensures { result ≡ self.now.calls.refused }
    {
        let WriterCalls { refused, .. } = self.calls;
        refused
    }

    /// The writer, without what waits.
    pub fn into_writer(self) -> W
        ensures { result ≡ self.writer }
    {
        let WriterCore { joined, .. } = self;
        joined.into_writer()
    }

    /// The writer.
    pub(crate) fn writer(&self) -> &W
        ensures { result.now ≡ self.now.writer }
    {
        self.joined.writer()
    }

    /// Writes the piece, which is empty then, whatever is answered. Until the call is done it counts
    /// as refused.
    fn write_piece(&mut self) -> Result<(), WriteError>
        requires open { IsOpen (W.calls self.old.writer) }
        requires marked { self.old.calls.refused ≡ true }
        ensures stands { OnOk result ((rows : List Row) → (since : List ℕ)
            → HasPut (W.stands self.old.writer) self.old.waiting rows since
            → HasPut (W.stands self.new.writer) self.new.waiting
            (rows ++ rows_of_chunks (written_piece self.old.maintain_order self.old.piece)) since) }
        ensures front { OnErr result ((rows : List Row) → (since : List ℕ)
            → HasPut (W.stands self.old.writer) self.old.waiting rows since
            → HasPutFront (W.stands self.new.writer)
            (rows ++ rows_of_chunks (written_piece self.old.maintain_order self.old.piece)) since) }
        ensures waiting { OnOk result (self.new.waiting
            ≡ waits_after self.old.least self.old.waiting
            (written_piece self.old.maintain_order self.old.piece)) }
        ensures kept { (self.new.maintain_order ≡ self.old.maintain_order)
            × (self.new.morsels ≡ self.old.morsels) × (self.new.least ≡ self.old.least)
            × (self.new.calls ≡ self.old.calls) × (self.new.piece ≡ []) }
        ensures some { 0 < self.old.morsels }
        ensures open { OnOk result (IsOpen (W.calls self.new.writer)) }
        ensures format { W.format self.new.writer ≡ W.format self.old.writer }
        ensures tells { is_some (W.told self.new.writer) ≡ is_some (W.told self.old.writer) }
        ensures cause { HasCause (W.faults self.old.writer) (W.faults self.new.writer)
            (IsErrOf result write_error.Output) }
    {
        let piece = mem::replace(&mut self.piece, Vec::new(self.alloc));
        let piece = in_order(self.maintain_order, piece)?;
        self.joined.put_all(piece)?;
        Ok(())
    }
    /// Takes a chunk, and writes the piece where it is full then. Until the call is done it counts
    /// as refused.
    fn take(&mut self, chunk: DataChunk) -> Result<(), WriteError>
        requires open { IsOpen (W.calls self.old.writer) }
        requires marked { self.old.calls.refused ≡ true }
        requires takes { IsWritable (W.fields (W.format self.old.writer)) chunk.frame }
        ensures stands { OnOk result ((chunks : List DataChunk) → (since : List ℕ)
            → HasTaken (W.stands self.old.writer) self.old chunks since
            → HasTaken (W.stands self.new.writer) self.new (chunks ++ (chunk ∷ [])) since) }
        ensures front { OnErr result ((chunks : List DataChunk) → (since : List ℕ)
            → HasTaken (W.stands self.old.writer) self.old chunks since
            → HasPutFront (W.stands self.new.writer) (rows_of_chunks (write_order
            (chunks ++ (chunk ∷ [])) self.old.morsels self.old.maintain_order)) since) }
        ensures kept { (self.new.maintain_order ≡ self.old.maintain_order)
            × (self.new.morsels ≡ self.old.morsels) × (self.new.least ≡ self.old.least)
            × (self.new.calls ≡ self.old.calls) }
        ensures open { OnOk result (IsOpen (W.calls self.new.writer)) }
        ensures format { W.format self.new.writer ≡ W.format self.old.writer }
        ensures tells { is_some (W.told self.new.writer) ≡ is_some (W.told self.old.writer) }
        ensures cause { HasCause (W.faults self.old.writer) (W.faults self.new.writer)
            (IsErrOf result write_error.Output) }
    {
        if chunk.frame.height() == 0 {
            return Ok(());
        }
        self.piece.push(chunk)?;
        if self.piece.len() < self.morsels {
            return Ok(());
        }
        self.write_piece()
    }

    /// Writes what is left, and finishes the writer. Until the call is done it counts as refused.
    fn end(&mut self) -> Result<(), WriteError>
        requires open { IsOpen (W.calls self.old.writer) }
        requires marked { self.old.calls.refused ≡ true }
        ensures stands { OnOk result ((chunks : List DataChunk) → (since : List ℕ)
            → HasTaken (W.stands self.old.writer) self.old chunks since
            → W.stands self.new.writer (rows_of_chunks (write_order
            chunks self.old.morsels self.old.maintain_order)) since) }
        ensures front { OnErr result ((chunks : List DataChunk) → (since : List ℕ)
            → HasTaken (W.stands self.old.writer) self.old chunks since
            → HasPutFront (W.stands self.new.writer) (rows_of_chunks (write_order
            chunks self.old.morsels self.old.maintain_order)) since) }
        ensures kept { (self.new.maintain_order ≡ self.old.maintain_order)
            × (self.new.morsels ≡ self.old.morsels) × (self.new.least ≡ self.old.least)
            × (self.new.calls ≡ self.old.calls) }
        ensures finished { OnOk result ((W.calls self.new.writer).finished ≡ true) }
        ensures unrefused { OnOk result ((W.calls self.new.writer).refused ≡ false) }
        ensures format { W.format self.new.writer ≡ W.format self.old.writer }
        ensures tells { is_some (W.told self.new.writer) ≡ is_some (W.told self.old.writer) }
        ensures cause { HasCause (W.faults self.old.writer) (W.faults self.new.writer)
            (IsErrOf result write_error.Output) }
    {
        self.write_piece()?;
        self.joined.finish()
    }

    /// Takes a chunk.
    pub fn add(&mut self, chunk: DataChunk) -> Result<(), WriteError>
        requires open { IsOpen self.old.calls }
        requires takes { IsWritable (W.fields (W.format self.old.writer)) chunk.frame }
        ensures stands { OnOk result ((chunks : List DataChunk) → (since : List ℕ)
            → HasTaken (W.stands self.old.writer) self.old chunks since
            → HasTaken (W.stands self.new.writer) self.new (chunks ++ (chunk ∷ [])) since) }
        ensures front { (chunks : List DataChunk) → (since : List ℕ)
            → HasTaken (W.stands self.old.writer) self.old chunks since
            → TellsFront (W.told self.new.writer) since (W.text (W.format self.old.writer)
            (rows_of_chunks (write_order (chunks ++ (chunk ∷ [])) self.old.morsels
            self.old.maintain_order))) }
        ensures calls { self.new.calls ≡ after_batch (is_err result) self.old.calls }
        ensures kept { (self.new.maintain_order ≡ self.old.maintain_order)
            × (self.new.morsels ≡ self.old.morsels) }
        ensures format { W.format self.new.writer ≡ W.format self.old.writer }
        ensures tells { is_some (W.told self.new.writer) ≡ is_some (W.told self.old.writer) }
        ensures cause { HasCause (W.faults self.old.writer) (W.faults self.new.writer)
            (IsErrOf result write_error.Output) }
    {
        self.calls.begun = true;
        self.calls.refused = true;
        self.take(chunk)?;
        self.calls.refused = false;
        Ok(())
    }

    /// Writes what is left, and finishes the writer.
    pub fn finish(&mut self) -> Result<(), WriteError>
        requires { IsOpen self.old.calls }
        ensures whole { OnOk result ((chunks : List DataChunk) → (since : List ℕ)
            → HasTaken (W.stands self.old.writer) self.old chunks since
            → TellsAfter (W.told self.new.writer) since (W.text (W.format self.old.writer)
            (rows_of_chunks (write_order chunks self.old.morsels self.old.maintain_order)))) }
        ensures front { (chunks : List DataChunk) → (since : List ℕ)
            → HasTaken (W.stands self.old.writer) self.old chunks since
            → TellsFront (W.told self.new.writer) since (W.text (W.format self.old.writer)
            (rows_of_chunks (write_order chunks self.old.morsels self.old.maintain_order))) }
        ensures calls { self.new.calls ≡ after_finish (is_err result) self.old.calls }
        ensures format { W.format self.new.writer ≡ W.format self.old.writer }
        ensures tells { is_some (W.told self.new.writer) ≡ is_some (W.told self.old.writer) }
        ensures cause { HasCause (W.faults self.old.writer) (W.faults self.new.writer)
            (IsErrOf result write_error.Output) }
    {
        self.calls.finished = true;
        self.calls.refused = true;
        self.end()?;
        self.calls.refused = false;
        Ok(())
    }
}
