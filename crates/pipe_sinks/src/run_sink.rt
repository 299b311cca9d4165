//! Chunks that a sink takes, and sinks that are combined.

ghost use Rattle.std.specs.Prelude.{◌≡◌, ◌∷◌, ◌++◌, [], OnErr, OnOk};
ghost use Rattle.pipe_aggs.specs.QueryTrees.{query_tree};
ghost use Rattle.pipe_sinks.specs.SoleKeys.{AreGivenKeys};
ghost use Rattle.pipe_sinks.specs.Runs.{MayCombine, Takes, with_taken};

use crate::add_chunk::add_apart;
use crate::key_runs::add_at_once;
use crate::sink_run::SinkRun;
use pipe_columns::{AnyValue, DataChunk};
use std::alloc::AllocError;
use std::snapshot::Snapshot;

impl<'a> SinkRun<'a> {
    /// Takes a chunk. Its groups are made beside those of the table, which takes them over once all
    /// memory is had, texts too.
    fn take_apart(&mut self, chunk: &DataChunk) -> Result<(), AllocError>
        requires { Takes self.old chunk.now }
        ensures ok { OnOk result
            (self.new ≡ with_taken (self.old.taken ++ chunk.now ∷ []) self.old) }
        ensures err { OnErr result (self.new ≡ self.old) }
    {
        let alloc = *self.taken.allocator();
        self.taken.reserve(1)?;
        let index = chunk.chunk_index;
        add_apart(
            alloc,
            &mut self.table,
            &mut self.key,
            self.query,
            index,
            chunk,
        )?;
        self.taken.push_reserved(Snapshot::of(chunk));
        Ok(())
    }

    /// Takes a chunk. Where no text is kept, room for all of its keys is made before a row comes in. The
    /// values of its keys may be given.
    pub fn take(&mut self, keys: Option<&[AnyValue]>, chunk: &DataChunk) -> Result<(), AllocError>
        requires takes { Takes self.old chunk.now }
        requires keys { AreGivenKeys (query_tree self.old.query) chunk.now keys }
        ensures ok { OnOk result
            (self.new ≡ with_taken (self.old.taken ++ chunk.now ∷ []) self.old) }
        ensures err { OnErr result (self.new ≡ self.old) }
    {
        if !self.table.keep_no_text() {
            return self.take_apart(chunk);
        }
        let alloc = *self.taken.allocator();
        self.taken.reserve(1)?;
        let index = chunk.chunk_index;
        add_at_once(
            alloc,
            &mut self.table,
            &mut self.key,
            self.query,
            keys,
            index,
            chunk,
        )?;
        self.taken.push_reserved(Snapshot::of(chunk));
        Ok(())
    }

    /// Takes the chunks of another sink over, which then has none.
    pub fn combine(&mut self, other: &mut SinkRun<'a>) -> Result<(), AllocError>
        requires { MayCombine self.old other.old }
        ensures ok { OnOk result
            (self.new ≡ with_taken (self.old.taken ++ other.old.taken) self.old) }
        ensures emptied { OnOk result (other.new ≡ with_taken [] other.old) }
        ensures err { OnErr result (self.new ≡ self.old) }
        ensures other_err { OnErr result (other.new ≡ other.old) }
    {
        self.taken.reserve(other.taken.len())?;
        self.table.combine(&mut other.table)?;
        self.taken.append(&mut other.taken).unwrap();
        Ok(())
    }
}
