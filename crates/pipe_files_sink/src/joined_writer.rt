//! A writer to which frames go joined.

ghost use Rattle.std.specs.Prelude.{◌≡◌, ◌++◌, ◌<◌, ◌^◌, ℕ, List, None, false, true, is_some, IsErrOf, OnErr, OnOk};
ghost use Rattle.std.specs.List.{All};
ghost use Rattle.pipe_columns.specs.Causes.{HasCause};
ghost use Rattle.pipe_files_sink.specs.Joined.{HasPut, IsWritable, then_waits, waits_after};
ghost use Rattle.pipe_files_sink.specs.JoinedState.{HasPutFront};
ghost use Rattle.pipe_lines.specs.Rows.{Row, frame_rows};
ghost use Rattle.pipe_writers.specs.WriteOrder.{rows_of_chunks};
ghost use Rattle.pipe_writers.specs.Writers.{IsOpen};
ghost use Rattle.pipe_writers.specs.declared.write_error.WriteError.TheVariants as write_error;

use pipe_columns::{DataChunk, DataFrame};
use pipe_writers::{SinkWriter, StreamingVstacker, WriteError};
use std::marker::Model;

/// How many rows are written together at least.
const LEAST_ROWS: usize = 4096;

/// A writer to which frames go joined, so that it is given so many rows at once at least.
#[derive(Drop)]
pub struct JoinedWriter<W: SinkWriter> {
    writer: W,
    rows: StreamingVstacker,
}

impl<W: SinkWriter> Model for JoinedWriter<W> {
    ghost use Rattle.pipe_files_sink.specs.JoinedState.{AwaitsMore, JoinedSeen};

    ghost Value = { JoinedSeen W };

    ghost view = { λ j. record {
      writer = j.writer;
      least = j.rows.rows;
      waiting = j.rows.waiting;
    } };

    ghost invariant = { λ j. AwaitsMore (W.fields (W.format j.writer)) j.rows };
}

impl<W: SinkWriter> JoinedWriter<W> {
    /// Nothing waits at first.
    pub(crate) fn new(writer: W) -> JoinedWriter<W>
        ensures { result ≡ record { writer = writer; least = 4096; waiting = None } }
    {
        JoinedWriter {
            writer,
            rows: StreamingVstacker::new(LEAST_ROWS),
        }
    }

    /// The writer, without what waits.
    pub(crate) fn into_writer(self) -> W
        ensures { result ≡ self.writer }
    {
        let JoinedWriter { writer, .. } = self;
        writer
    }

    /// The writer.
    pub(crate) fn writer(&self) -> &W
        ensures { result.now ≡ self.now.writer }
    {
        &self.writer
    }

    /// Takes a frame, and writes all that waits where it has enough rows then.
    pub(crate) fn put(&mut self, frame: DataFrame) -> Result<(), WriteError>
        requires open { IsOpen (W.calls self.old.writer) }
        requires takes { IsWritable (W.fields (W.format self.old.writer)) frame }
        ensures stands { OnOk result ((rows : List Row) → (since : List ℕ)
            → HasPut (W.stands self.old.writer) self.old.waiting rows since
            → HasPut (W.stands self.new.writer) self.new.waiting (rows ++ frame_rows frame) since) }
        ensures front { OnErr result ((rows : List Row) → (since : List ℕ)
            → HasPut (W.stands self.old.writer) self.old.waiting rows since
            → HasPutFront (W.stands self.new.writer) (rows ++ frame_rows frame) since) }
        ensures waiting { OnOk result
            (self.new.waiting ≡ then_waits self.old.least self.old.waiting frame) }
        ensures least { self.new.least ≡ self.old.least }
        ensures open { OnOk result (IsOpen (W.calls self.new.writer)) }
        ensures format { W.format self.new.writer ≡ W.format self.old.writer }
        ensures tells { is_some (W.told self.new.writer) ≡ is_some (W.told self.old.writer) }
        ensures cause { HasCause (W.faults self.old.writer) (W.faults self.new.writer)
            (IsErrOf result write_error.Output) }
    {
        if let Some(all) = self.rows.add(frame)? {
            self.writer._write_batch(&all)?;
        }
        Ok(())
    }

    /// Takes the frames of chunks, in their order.
    pub(crate) fn put_all(&mut self, chunks: Vec<DataChunk>) -> Result<(), WriteError>
        requires open { IsOpen (W.calls self.old.writer) }
        requires takes { All (λ c. IsWritable (W.fields (W.format self.old.writer)) c.frame)
            chunks.items }
        ensures stands { OnOk result ((rows : List Row) → (since : List ℕ)
            → HasPut (W.stands self.old.writer) self.old.waiting rows since
            → HasPut (W.stands self.new.writer) self.new.waiting
            (rows ++ rows_of_chunks chunks.items) since) }
        ensures front { OnErr result ((rows : List Row) → (since : List ℕ)
            → HasPut (W.stands self.old.writer) self.old.waiting rows since
            → HasPutFront (W.stands self.new.writer) (rows ++ rows_of_chunks chunks.items) since) }
        ensures waiting { OnOk result
            (self.new.waiting ≡ waits_after self.old.least self.old.waiting chunks.items) }
        ensures least { self.new.least ≡ self.old.least }
        ensures open { OnOk result (IsOpen (W.calls self.new.writer)) }
        ensures format { W.format self.new.writer ≡ W.format self.old.writer }
        ensures tells { is_some (W.told self.new.writer) ≡ is_some (W.told self.old.writer) }
        ensures cause { HasCause (W.faults self.old.writer) (W.faults self.new.writer)
            (IsErrOf result write_error.Output) }
    {
        for chunk in chunks {
            self.put(chunk.frame)?;
        }
        Ok(())
    }

    /// Writes what waits, and finishes the writer.
    pub(crate) fn finish(&mut self) -> Result<(), WriteError>
        requires { IsOpen (W.calls self.old.writer) }
        ensures stands { (rows : List Row) → (since : List ℕ)
            → HasPut (W.stands self.old.writer) self.old.waiting rows since
            → W.stands self.new.writer rows since }
        ensures finished { OnOk result ((W.calls self.new.writer).finished ≡ true) }
        ensures unrefused { OnOk result ((W.calls self.new.writer).refused ≡ false) }
        ensures least { self.new.least ≡ self.old.least }
        ensures format { W.format self.new.writer ≡ W.format self.old.writer }
        ensures tells { is_some (W.told self.new.writer) ≡ is_some (W.told self.old.writer) }
        ensures cause { HasCause (W.faults self.old.writer) (W.faults self.new.writer)
            (IsErrOf result write_error.Output) }
    {
        if let Some(rest) = self.rows.finish() {
            self.writer._write_batch(&rest)?;
        }
        self.writer._finish()
    }
}
