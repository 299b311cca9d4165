//! A sink that gives its chunks in their order.

ghost use Rattle.std.specs.Prelude.{◌≡◌, ◌∷◌, ◌++◌, [], List, IfOk, OnErr, OnOk, codes};
ghost use Rattle.pipe_columns.specs.Chunks.{frame_given};
ghost use Rattle.pipe_columns.specs.declared.data_chunk.DataChunk.{DataChunk};
ghost use Rattle.pipe_columns.specs.declared.schema.Field.{Field};
ghost use Rattle.pipe_columns.specs.declared.sink.SinkResult.TheVariants as sink_result;
ghost use Rattle.pipe_writers.specs.Kept.{TakesChunk, TakesOver, emptied, chunks_kept, ordered_frame};

use crate::kept_chunks::KeptChunks;
use pipe_columns::{DataChunk, FinalizedSink, Schema, Sink, SinkResult};
use std::alloc::{AllocError, Global};

/// Keeps chunks, and gives their frame by the numbers of the chunks.
#[derive(Drop)]
pub struct OrderedSink {
    kept: KeptChunks,
}

impl OrderedSink {
    /// A sink without a chunk, for frames of a schema.
    pub fn new(alloc: Global, schema: Schema) -> OrderedSink
        ensures { result.kept ≡ record { fields = schema; chunks = [] } }
    {
        OrderedSink {
            kept: KeptChunks::new(alloc, schema),
        }
    }

    /// A sink of the same schema without a chunk.
    pub fn split(&self) -> Result<OrderedSink, AllocError>
        ensures { IfOk result (λ s. s.kept ≡ emptied self.now.kept) }
    {
        let kept = self.kept.split()?;
        Ok(OrderedSink { kept })
    }

    /// Takes over the chunks of another behind its own. Where memory is wanting, both are as
    /// before.
    pub fn combine(&mut self, other: &mut OrderedSink) -> Result<(), AllocError>
        requires { TakesOver self.old.kept other.old.kept }
        ensures stands { OnOk result ((chunks others : List DataChunk)
            → self.old.kept.chunks ≡ chunks_kept chunks → other.old.kept.chunks ≡ chunks_kept others
            → self.new.kept.chunks ≡ chunks_kept (chunks ++ others)) }
        ensures fields { self.new.kept.fields ≡ self.old.kept.fields }
        ensures taken { OnOk result (other.new.kept ≡ emptied other.old.kept) }
        ensures err { OnErr result (self.new ≡ self.old) }
        ensures err_other { OnErr result (other.new ≡ other.old) }
    {
        self.kept.take_over(&mut other.kept)?;
        Ok(())
    }
}

impl Sink for OrderedSink {
    type Fault = AllocError;

    ghost name = { codes "ordered_sink" };

    ghost takes = { λ s chunk. TakesChunk s.kept chunk };

    ghost stands = { λ s chunks. s.kept.chunks ≡ chunks_kept chunks };

    ghost Purpose = { List Field };

    ghost purpose = { λ s. s.kept.fields };

    ghost gives = { λ fields chunks frame. frame ≡ ordered_frame fields chunks };

    fn sink(&mut self, chunk: DataChunk) -> Result<SinkResult, AllocError>
        requires { TakesChunk self.old.kept chunk }
        ensures taken { OnOk result ((chunks : List DataChunk) → self.old.kept.chunks ≡ chunks_kept chunks
            → self.new.kept.chunks ≡ chunks_kept (chunks ++ (chunk ∷ []))) }
        ensures purpose { self.new.kept.fields ≡ self.old.kept.fields }
        ensures answer { IfOk result (λ r. r ≡ sink_result.CanHaveMoreInput) }
        ensures err { OnErr result (self.new ≡ self.old) }
    {
        let _was_kept = self.kept.keep(chunk)?;
        Ok(SinkResult::CanHaveMoreInput)
    }

    fn finalize(&mut self) -> Result<FinalizedSink, AllocError>
        ensures given { IfOk result (λ r. (chunks : List DataChunk)
            → self.old.kept.chunks ≡ chunks_kept chunks
            → frame_given r ≡ ordered_frame self.old.kept.fields chunks) }
        ensures purpose { self.new.kept.fields ≡ self.old.kept.fields }
        ensures emptied { OnOk result (self.new.kept ≡ emptied self.old.kept) }
        ensures err { OnErr result (self.new ≡ self.old) }
    {
        let frame = self.kept.join()?;
        Ok(FinalizedSink::Finished(frame))
    }

    fn fmt(&self) -> &str {
        "ordered_sink"
    }
}
