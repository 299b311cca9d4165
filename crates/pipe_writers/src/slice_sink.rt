//! A sink that gives a slice of its chunks in their order.

ghost use Rattle.std.specs.Prelude.{ℕ, ◌≡◌, ◌∷◌, ◌++◌, ◌↔◌, [], List, IfOk, OnErr, OnOk, IsTrue, codes};
ghost use Rattle.pipe_columns.specs.Chunks.{frame_given};
ghost use Rattle.pipe_columns.specs.declared.data_chunk.DataChunk.{DataChunk};
ghost use Rattle.pipe_columns.specs.declared.schema.Field.{Field};
ghost use Rattle.pipe_columns.specs.declared.sink.SinkResult.TheVariants as sink_result;
ghost use Rattle.pipe_writers.specs.Kept.{TakesChunk, TakesOver, emptied, is_beyond, is_past, chunks_kept, slice_of_ordered};

use crate::kept_chunks::KeptChunks;
use pipe_columns::{DataChunk, FinalizedSink, Schema, Sink, SinkResult};
use std::alloc::{AllocError, Global};

/// Keeps chunks, and gives a slice of their frame by the numbers of the chunks.
#[derive(Drop)]
pub struct SliceSink {
    offset: u64,
    len: usize,
    kept: KeptChunks,
}

impl SliceSink {
    /// A sink without a chunk, for frames of a schema.
    pub fn new(alloc: Global, offset: u64, len: usize, schema: Schema) -> SliceSink
        ensures kept { result.kept ≡ record { fields = schema; chunks = [] } }
        ensures offset { result.offset ≡ offset }
        ensures len { result.len ≡ len }
    {
        SliceSink {
            offset,
            len,
            kept: KeptChunks::new(alloc, schema),
        }
    }

    /// A sink of the same slice and schema without a chunk.
    pub fn split(&self) -> Result<SliceSink, AllocError>
        ensures kept { IfOk result (λ s. s.kept ≡ emptied self.now.kept) }
        ensures offset { IfOk result (λ s. s.offset ≡ self.now.offset) }
        ensures len { IfOk result (λ s. s.len ≡ self.now.len) }
    {
        let kept = self.kept.split()?;
        Ok(SliceSink {
            offset: self.offset,
            len: self.len,
            kept,
        })
    }

    /// Takes over the chunks of another behind its own. Where memory is wanting, both are as
    /// before.
    pub fn combine(&mut self, other: &mut SliceSink) -> Result<(), AllocError>
        requires { TakesOver self.old.kept other.old.kept }
        ensures stands { OnOk result ((chunks others : List DataChunk)
            → self.old.kept.chunks ≡ chunks_kept chunks → other.old.kept.chunks ≡ chunks_kept others
            → self.new.kept.chunks ≡ chunks_kept (chunks ++ others)) }
        ensures purpose { (self.new.kept.fields ≡ self.old.kept.fields)
            × (self.new.offset ≡ self.old.offset) × (self.new.len ≡ self.old.len) }
        ensures taken { OnOk result (other.new.kept ≡ emptied other.old.kept) }
        ensures err { OnErr result (self.new ≡ self.old) }
        ensures err_other { OnErr result (other.new ≡ other.old) }
    {
        self.kept.take_over(&mut other.kept)?;
        Ok(())
    }

    /// Whether more rows are kept than the slice reaches over.
    fn is_reached(&self) -> bool
        ensures { result ≡ is_past self.now.offset self.now.len self.now.kept.chunks }
    {
        let end = self.offset as u128 + self.len as u128;
        end < self.kept.rows() as u128
    }
}

/// What a sink answers.
fn answer(is_finished: bool) -> SinkResult
    ensures { (result ≡ sink_result.Finished) ↔ IsTrue is_finished }
{
    if is_finished {
        SinkResult::Finished
    } else {
        SinkResult::CanHaveMoreInput
    }
}

impl Sink for SliceSink {
    type Fault = AllocError;

    ghost name = { codes "slice_sink" };

    ghost takes = { λ s chunk. TakesChunk s.kept chunk };

    ghost stands = { λ s chunks. s.kept.chunks ≡ chunks_kept chunks };

    ghost Purpose = { ℕ × ℕ × List Field };

    ghost purpose = { λ s. (s.offset, s.len, s.kept.fields) };

    ghost gives = { λ p chunks frame. frame ≡ slice_of_ordered p.0 p.1 p.2 chunks };

    fn sink(&mut self, chunk: DataChunk) -> Result<SinkResult, AllocError>
        requires { TakesChunk self.old.kept chunk }
        ensures taken { OnOk result ((chunks : List DataChunk) → self.old.kept.chunks ≡ chunks_kept chunks
            → self.new.kept.chunks ≡ chunks_kept (chunks ++ (chunk ∷ []))) }
        ensures purpose { (self.new.offset ≡ self.old.offset)
            × (self.new.len ≡ self.old.len) × (self.new.kept.fields ≡ self.old.kept.fields) }
        ensures finished { IfOk result (λ r. (r ≡ sink_result.Finished)
            ↔ IsTrue (is_beyond self.old.offset self.old.len self.old.kept.chunks chunk)) }
        ensures err { OnErr result (self.new ≡ self.old) }
    {
        let is_reached = self.is_reached();
        let is_kept = self.kept.keep(chunk)?;
        Ok(answer(is_kept && is_reached))
    }

    fn finalize(&mut self) -> Result<FinalizedSink, AllocError>
        ensures given { IfOk result (λ r. (chunks : List DataChunk)
            → self.old.kept.chunks ≡ chunks_kept chunks
            → frame_given r
            ≡ slice_of_ordered self.old.offset self.old.len self.old.kept.fields chunks) }
        ensures purpose { (self.new.offset ≡ self.old.offset)
            × (self.new.len ≡ self.old.len) × (self.new.kept.fields ≡ self.old.kept.fields) }
        ensures emptied { OnOk result (self.new.kept ≡ emptied self.old.kept) }
        ensures err { OnErr result (self.new ≡ self.old) }
    {
        let frame = self.kept.join()?;
        let frame = frame.slice(self.offset as usize, self.len);
        Ok(FinalizedSink::Finished(frame))
    }

    fn fmt(&self) -> &str {
        "slice_sink"
    }
}
