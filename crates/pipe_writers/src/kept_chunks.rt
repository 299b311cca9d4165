//! Chunks that are kept until their frame is asked for.

ghost use Rattle.std.specs.Prelude.{◌≡◌, ◌∷◌, ◌++◌, ◌+◌, ◌<◌, ◌^◌, ◌≤◌, [], IfOk, OnErr, OnOk, All};
ghost use Rattle.pipe_columns.specs.Frame.{FitsSchema, fields_of};
ghost use Rattle.pipe_writers.specs.Kept.{TakesChunk, TakesOver, emptied, keeps_chunk, joined_frames, chunks_kept, row_count};
ghost use Rattle.pipe_writers.specs.Room.{all_stacked};
ghost use Rattle.pipe_writers.specs.WriteOrder.{by_number};

use crate::chunk_order::sort_by_number;
use crate::frame_room::FrameRoom;
use crate::schema_copy::copy_schema;
use pipe_columns::{DataChunk, DataFrame, Schema};
use std::alloc::{AllocError, Global};
use std::marker::Model;
use std::mem;

/// The schema of chunks, and those kept so far, with the number of their rows.
#[derive(Drop)]
pub struct KeptChunks {
    alloc: Global,
    schema: Schema,
    chunks: Vec<DataChunk>,
    rows: usize,
}

impl Model for KeptChunks {
    ghost use Rattle.pipe_writers.specs.Kept.{KeptData};
    ghost use Rattle.pipe_writers.specs.KeptFields.{AreKeptChunks};

    ghost Value = { KeptData };

    ghost view = { λ k. record { fields = k.schema; chunks = k.chunks.items } };

    ghost invariant = { λ k. AreKeptChunks k.schema k.chunks.items k.rows };
}

/// Whether one more chunk is kept.
fn wants(chunks: &[DataChunk], chunk: &DataChunk) -> bool
    ensures { result ≡ keeps_chunk chunks.now chunk.now }
{
    chunks.is_empty() || chunk.frame.height() != 0
}

/// Moves kept chunks behind others that are kept.
fn append_kept(chunks: &mut Vec<DataChunk>, more: &mut Vec<DataChunk>) -> Result<(), AllocError>
    requires kept { chunks_kept chunks.old.items ≡ chunks.old.items }
    requires more { chunks_kept more.old.items ≡ more.old.items }
    ensures ok { OnOk result (chunks.new.items ≡ chunks_kept (chunks.old.items ++ more.old.items)) }
    ensures taken { OnOk result (more.new.items ≡ []) }
    ensures err { OnErr result (chunks.new.items ≡ chunks.old.items) }
    ensures err_more { OnErr result (more.new.items ≡ more.old.items) }
{
    let before = chunks.len();
    chunks.append(more)?;
    if before == 0 {
        return Ok(());
    }
    if before == chunks.len() {
        return Ok(());
    }
    if chunks[before].frame.height() > 0 {
        return Ok(());
    }
    let _no_rows = chunks.remove(before);
    Ok(())
}

/// The frames of chunks in their order, below what a room has. It takes no memory.
fn join_frames(mut room: FrameRoom, chunks: Vec<DataChunk>) -> DataFrame
    requires fit { All (λ c. FitsSchema (fields_of room.frame.columns) c.frame) chunks.items }
    requires room { room.frame.height + row_count chunks.items ≤ room.most }
    ensures { result ≡ all_stacked room.frame chunks.items }
{
    for chunk in chunks {
        room.fill(chunk.frame);
    }
    room.into_frame()
}

impl KeptChunks {
    pub(crate) fn new(alloc: Global, schema: Schema) -> KeptChunks
        ensures { result ≡ record { fields = schema; chunks = [] } }
    {
        KeptChunks {
            alloc,
            schema,
            chunks: Vec::new(alloc),
            rows: 0,
        }
    }

    /// How many rows are kept.
    pub(crate) fn rows(&self) -> usize
        ensures { result ≡ row_count self.now.chunks }
    {
        self.rows
    }

    /// Keeps one more chunk where it has rows or none is kept, and says whether it did.
    pub(crate) fn keep(&mut self, chunk: DataChunk) -> Result<bool, AllocError>
        requires { TakesChunk self.old chunk }
        ensures ok { OnOk result (self.new ≡ record self.old {
          chunks = chunks_kept (self.old.chunks ++ (chunk ∷ []));
        }) }
        ensures says { IfOk result (λ b. b ≡ keeps_chunk self.old.chunks chunk) }
        ensures err { OnErr result (self.new ≡ self.old) }
    {
        let height = chunk.frame.height();
        if !wants(&self.chunks, &chunk) {
            return Ok(false);
        }
        self.chunks.push(chunk)?;
        self.rows += height;
        Ok(true)
    }

    /// What keeps chunks of the same schema, and has none yet.
    pub(crate) fn split(&self) -> Result<KeptChunks, AllocError>
        ensures { IfOk result (λ k. k ≡ emptied self.now) }
    {
        let schema = copy_schema(self.alloc, &self.schema)?;
        Ok(KeptChunks::new(self.alloc, schema))
    }

    /// Takes over the chunks of another behind its own. Where memory is wanting, both are as
    /// before.
    pub(crate) fn take_over(&mut self, other: &mut KeptChunks) -> Result<(), AllocError>
        requires { TakesOver self.old other.old }
        ensures ok { OnOk result (self.new ≡ record self.old {
          chunks = chunks_kept (self.old.chunks ++ other.old.chunks);
        }) }
        ensures taken { OnOk result (other.new ≡ emptied other.old) }
        ensures err { OnErr result (self.new ≡ self.old) }
        ensures err_other { OnErr result (other.new ≡ other.old) }
    {
        append_kept(&mut self.chunks, &mut other.chunks)?;
        self.rows += other.rows;
        other.rows = 0;
        Ok(())
    }

    /// The frame of the kept chunks, by their numbers. None is kept then; where memory is wanting,
    /// all are, in the order that they have.
    pub(crate) fn join(&mut self) -> Result<DataFrame, AllocError>
        ensures ok { IfOk result (λ f. f ≡ joined_frames self.old.fields (by_number self.old.chunks)) }
        ensures emptied { OnOk result (self.new ≡ emptied self.old) }
        ensures err { OnErr result (self.new ≡ self.old) }
    {
        if self.chunks.len() == 1 {
            let Some(chunk) = self.chunks.pop() else {
                unreachable!()
            };
            self.rows = 0;
            return Ok(chunk.frame);
        }
        let room = FrameRoom::new(self.alloc, &self.schema, self.rows)?;
        sort_by_number(&mut self.chunks)?;
        let chunks = mem::replace(&mut self.chunks, Vec::new(self.alloc));
        self.rows = 0;
        Ok(join_frames(room, chunks))
    }
}
