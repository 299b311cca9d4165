//! Sinks whose writer runs beside their caller.

ghost use Rattle.std.specs.Prelude.{◌≡◌};

use crate::fed::{ended, send_into, sink_into};
use crate::hold::hold;
use crate::made::{blank_rows, chunk_of, csv_sink, texts};
use crate::outputs::{Waiting, is_raised, shared};
use pipe_columns::{DataChunk, Schema, SinkResult};
use pipe_files_sink::FilesSink;
use pipe_writers::SinkWriter;
use std::alloc::{AllocError, Global};
use std::sync::atomic::{AtomicU64, Ordering};
use std::sync::{Arc, Wait};
use std::test::Fail;
use std::thread::Threads;

/// An output that waits for a flag, and counts its writes.
fn waiting(
    flag: &Arc<AtomicU64, Global>,
    writes: &Arc<AtomicU64, Global>,
) -> Result<Waiting, AllocError> {
    let flag = Arc::try_clone(flag)?;
    Ok(Waiting {
        flag,
        writes: Arc::try_clone(writes)?,
        faults: 0,
    })
}

/// Whether a sink takes a chunk while its writer waits, writes it once a flag is raised, and then ends.
fn goes_on<W, H>(
    sink: &mut FilesSink<W, H>,
    schema: &Schema,
    chunk: DataChunk,
    flag: &AtomicU64,
    writes: &AtomicU64,
) -> Result<bool, AllocError>
where
    W: SinkWriter + Drop,
    H: Threads + Wait + Copy,
    requires { sink.old.schema ≡ schema.now }
{
    let answer = sink_into(sink, schema, chunk)?;
    flag.store(1, Ordering::SeqCst);
    Ok(answer == SinkResult::CanHaveMoreInput && is_raised(writes) && ended(sink) == Ok(true))
}

/// Whether a sink does whose output waits for the flag.
fn writes_beside_it<H: Threads + Wait + Copy + Send + 'static>(
    rt: H,
    alloc: Global,
    schema: &Schema,
    flag: &Arc<AtomicU64, Global>,
    writes: &Arc<AtomicU64, Global>,
) -> Result<bool, AllocError> {
    let mut sink = csv_sink(rt, alloc, waiting(flag, writes)?, schema, true, 1)?;
    goes_on(&mut sink, schema, blank_rows(alloc, 0, 4096)?, flag, writes)
}

#[test]
fn writes_beside(rt: HostRuntime) -> Result<(), Fail> {
    let schema = texts(rt.alloc())?;
    let (flag, writes) = (shared(rt.alloc(), 0)?, shared(rt.alloc(), 0)?);
    hold(writes_beside_it(rt, rt.alloc(), &schema, &flag, &writes))
}

/// Whether a sink that is dropped before its end writes nothing, and its sender then takes no chunk.
fn is_unfinished<H: Threads + Wait + Copy + Send + 'static>(
    rt: H,
    alloc: Global,
    schema: &Schema,
    flag: &Arc<AtomicU64, Global>,
    writes: &Arc<AtomicU64, Global>,
) -> Result<bool, AllocError> {
    let mut sink = csv_sink(rt, alloc, waiting(flag, writes)?, schema, true, 1)?;
    sink_into(&mut sink, schema, chunk_of(alloc, 0, &["a"])?)?;
    let sender = sink.split();
    drop(sink);
    let answer = send_into(&mut sender?, schema, chunk_of(alloc, 1, &["b"])?)?;
    Ok(answer == SinkResult::Finished && writes.load(Ordering::SeqCst) == 0)
}

#[test]
fn dropped_sink_leaves_the_writing_unfinished(rt: HostRuntime) -> Result<(), Fail> {
    let schema = texts(rt.alloc())?;
    let (flag, writes) = (shared(rt.alloc(), 1)?, shared(rt.alloc(), 0)?);
    hold(is_unfinished(rt, rt.alloc(), &schema, &flag, &writes))
}
