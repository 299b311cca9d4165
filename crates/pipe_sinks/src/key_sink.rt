//! The sink for one key: one body for keys of integers and of texts.

ghost use Rattle.std.specs.Prelude.{◌≡◌, ◌<◌, ◌≤◌, ◌^◌, ◌∷◌, ◌++◌, [], IfOk, List, OnErr, OnOk};
ghost use Rattle.pipe_columns.specs.Chunks.{frame_given};
ghost use Rattle.pipe_columns.specs.declared.data_chunk.DataChunk.{DataChunk};
ghost use Rattle.pipe_columns.specs.declared.sink.SinkResult.TheVariants as sink_result;
ghost use Rattle.pipe_aggs.specs.QueryTrees.{query_tree};
ghost use Rattle.pipe_model.specs.Output.{key_types};
ghost use Rattle.pipe_sinks.specs.Runs.{IsAnswer, IsKeyColumn, MayCombine, Purpose, purpose_of, Takes, with_taken};

use crate::sink_run::SinkRun;
use crate::sole_key::SoleKey;
use pipe_aggs::CheckedQuery;
use pipe_columns::{Column, DataChunk, FinalizedSink, Sink, SinkResult};
use std::alloc::{AllocError, Global};
use std::marker::{Model, PhantomData};

/// A sink for one key, which keeps all keys. Contracts see what it is made for and the chunks taken.
#[derive(Drop)]
pub struct KeySink<'a, S> {
    run: SinkRun<'a>,
    of: PhantomData<S>,
}

impl<'a, S> Model for KeySink<'a, S> {
    ghost use Rattle.pipe_sinks.specs.Runs.{Run};

    ghost Value = { Run };

    ghost view = { λ a. a.run };
}

impl<'a, S: SoleKey> KeySink<'a, S> {
    /// A sink that took nothing, for the one key of a query, whose groups come out of so many partitions.
    /// More than 2^32 of these can't be had.
    pub fn new(
        alloc: Global,
        query: &'a CheckedQuery<'a>,
        partitions: usize,
    ) -> Result<KeySink<'a, S>, AllocError>
        requires some { 0 < partitions }
        requires key { key_types (query_tree query.now) ≡ S.dtype ∷ [] }
        ensures made { IfOk result
            (λ s. s ≡ record { query = query.now; partitions = partitions; taken = [] }) }
        ensures few { OnOk result (partitions ≤ 2 ^ 32) }
    {
        let run = SinkRun::new(alloc, query, partitions)?;
        Ok(KeySink {
            run,
            of: PhantomData,
        })
    }

    /// A sink that took nothing, made for the same.
    pub fn split(&self) -> Result<KeySink<'a, S>, AllocError>
        ensures { IfOk result (λ s. s ≡ with_taken [] self.now) }
    {
        let run = self.run.split()?;
        Ok(KeySink {
            run,
            of: PhantomData,
        })
    }

    /// Takes the chunks of another sink over, which then has none.
    pub fn combine(&mut self, other: &mut KeySink<'a, S>) -> Result<(), AllocError>
        requires { MayCombine self.old other.old }
        ensures ok { OnOk result
            (self.new ≡ with_taken (self.old.taken ++ other.old.taken) self.old) }
        ensures emptied { OnOk result (other.new ≡ with_taken [] other.old) }
        ensures err { OnErr result (self.new ≡ self.old) }
        ensures other_err { OnErr result (other.new ≡ other.old) }
    {
        self.run.combine(&mut other.run)?;
        Ok(())
    }

    /// Takes a chunk whose column of keys is at hand, whatever its flag says.
    pub fn sink_sorted(&mut self, key: &Column, chunk: &DataChunk) -> Result<SinkResult, AllocError>
        requires takes { Takes self.old chunk.now }
        requires key { IsKeyColumn (query_tree self.old.query) chunk.now key.now }
        ensures taken { OnOk result ((chunks : List DataChunk) → self.old.taken ≡ chunks
            → self.new.taken ≡ chunks ++ (chunk.now ∷ [])) }
        ensures purpose { purpose_of self.new ≡ purpose_of self.old }
        ensures answer { IfOk result (λ r. r ≡ sink_result.CanHaveMoreInput) }
        ensures err { OnErr result (self.new ≡ self.old) }
    {
        self.run.take(Some(key.values()), chunk)?;
        Ok(SinkResult::CanHaveMoreInput)
    }
}

impl<'a, S: SoleKey> Sink for KeySink<'a, S> {
    type Fault = AllocError;

    ghost name = { S.called };

    ghost takes = { Takes };

    ghost stands = { λ s chunks. s.taken ≡ chunks };

    ghost Purpose = { Purpose };

    ghost purpose = { purpose_of };

    ghost gives = { IsAnswer };

    fn sink(&mut self, chunk: DataChunk) -> Result<SinkResult, AllocError>
        requires { Takes self.old chunk }
        ensures taken { OnOk result ((chunks : List DataChunk) → self.old.taken ≡ chunks
            → self.new.taken ≡ chunks ++ (chunk ∷ [])) }
        ensures purpose { purpose_of self.new ≡ purpose_of self.old }
        ensures answer { IfOk result (λ r. r ≡ sink_result.CanHaveMoreInput) }
        ensures err { OnErr result (self.new ≡ self.old) }
    {
        self.run.take(None, &chunk)?;
        Ok(SinkResult::CanHaveMoreInput)
    }

    fn finalize(&mut self) -> Result<FinalizedSink, AllocError>
        ensures given { IfOk result (λ r. (chunks : List DataChunk) → self.old.taken ≡ chunks
            → IsAnswer (purpose_of self.old) chunks (frame_given r)) }
        ensures purpose { purpose_of self.new ≡ purpose_of self.old }
        ensures emptied { OnOk result (self.new ≡ with_taken [] self.old) }
        ensures err { OnErr result (self.new ≡ self.old) }
    {
        let frame = self.run.finish()?;
        Ok(FinalizedSink::Finished(frame))
    }

    fn fmt(&self) -> &str {
        S::name()
    }
}
