//! What rows cost that a `FilesSink` writes.

ghost use Rattle.std.specs.Prelude.{◌≡◌, IfOk};

use crate::fed::{MORSELS, is_taken};
use crate::made::{Nowhere, chunks_of};
use anyhow::Context;
use pipe_columns::{DataChunk, Schema, Sink};
use pipe_files_sink::{CsvSink, CsvWriterOptions, FilesSink};
use pipe_writers::{CsvBatchedWriter, copy_schema};
use std::alloc::{AllocError, Global};
use std::sync::Wait;
use std::thread::Threads;
use std::time::{Clock, Instant};

/// A sink of CSV.
type Files<H> = FilesSink<CsvBatchedWriter<Nowhere>, H>;

/// A sink that took no chunk.
fn sink_of<H>(rt: H, alloc: Global, schema: &Schema) -> Result<Files<H>, AllocError>
where
    H: Threads + Wait + Copy + Send + 'static,
    ensures { IfOk result (λ s. s.schema ≡ schema.now) }
{
    let schema = copy_schema(alloc, schema)?;
    let options = CsvWriterOptions {
        include_header: true,
        maintain_order: true,
        morsels_per_sink: MORSELS,
    };
    CsvSink::new(rt, alloc, Nowhere, schema, options)
}

/// Whether a sink took a chunk.
fn takes<H>(sink: &mut Files<H>, schema: &Schema, chunk: DataChunk) -> bool
where
    H: Threads + Wait + Copy,
    requires { sink.old.schema ≡ schema.now }
    ensures { sink.new.schema ≡ sink.old.schema }
{
    if !is_taken(schema, &chunk) {
        return false;
    }
    sink.sink(chunk).is_ok()
}

/// Whether a sink wrote all chunks.
fn writes_all<H>(sink: &mut Files<H>, schema: &Schema, chunks: Vec<DataChunk>) -> bool
where
    H: Threads + Wait + Copy,
    requires { sink.old.schema ≡ schema.now }
{
    let mut all = true;
    for chunk in chunks {
        if !takes(sink, schema, chunk) {
            all = false;
        }
    }
    sink.finalize().is_ok() && all
}

/// What all rows cost, in nanoseconds.
pub(crate) fn files_time<H>(rt: H, alloc: Global, schema: &Schema) -> anyhow::Result<u128>
where
    H: Threads + Wait + Clock + Copy + Send + 'static,
{
    let chunks = chunks_of(alloc)?;
    let start = Instant::now(&rt)?;
    let mut sink = sink_of(rt, alloc, schema)?;
    let all = writes_all(&mut sink, schema, chunks);
    drop(sink);
    let time = start.elapsed(&rt)?.as_nanos();
    all.then_some(time).context("not all was written")
}
