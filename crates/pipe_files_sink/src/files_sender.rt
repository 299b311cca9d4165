//! A second way into a sink of files.

ghost use Rattle.std.specs.Prelude.{◌≡◌, IsErrOf};
ghost use Rattle.pipe_files_sink.specs.Joined.{IsWritable};
ghost use Rattle.pipe_writers.specs.declared.write_error.WriteError.TheVariants as write_error;

use crate::chunk_way::ChunkWay;
use pipe_columns::{DataChunk, Schema, SinkResult};
use pipe_writers::{SinkWriter, WriteError};
use std::marker::PhantomData;
use std::sync::Wait;

/// A second way into a sink of files. It may outlive the sink, and then takes no chunk. Where the sink
/// writes itself, chunks wait until it is called.
#[derive(Drop)]
pub struct FilesSender<W: SinkWriter + Drop, H> {
    rt: H,
    schema: Schema,
    way: ChunkWay,
    of: PhantomData<W>,
}

impl<W: SinkWriter + Drop, H: Wait> FilesSender<W, H> {
    pub(crate) fn new(rt: H, schema: Schema, way: ChunkWay) -> FilesSender<W, H>
        ensures { result.schema ≡ schema }
    {
        FilesSender {
            rt,
            schema,
            way,
            of: PhantomData,
        }
    }

    /// Takes a chunk. It is `Finished` once the writing has ended; how that went only `finalize`
    /// of the sink tells.
    pub fn sink(&mut self, chunk: DataChunk) -> Result<SinkResult, WriteError>
        requires { IsWritable self.old.schema chunk.frame }
        ensures same { self.new ≡ self.old }
        ensures cause { ¬ IsErrOf result write_error.Output }
    {
        self.way.hand_over(&self.rt, chunk)
    }
}
