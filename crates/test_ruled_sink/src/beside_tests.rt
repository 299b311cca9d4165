//! A writer that writes beside its sender.

use crate::made::{Counting, blank_chunks, is_raised, texts};
use crate::sinks::{ended, feed_all, hold, one_sender, result_of};
use pipe_columns::{DataChunk, Schema};
use std::alloc::Global;
use std::sync::atomic::AtomicU64;
use std::sync::{Arc, Wait};
use std::test::Fail;
use std::thread::Threads;

/// Whether a sink writes a chunk before it is asked to end, and then ends well.
fn writes<H>(
    rt: H,
    alloc: Global,
    writes: &AtomicU64,
    output: Counting,
    schema: &Schema,
    chunks: Vec<DataChunk>,
) -> Result<bool, Fail>
where
    H: Threads + Wait + Copy + Send + 'static,
{
    let room = Vec::with_capacity(alloc, 1)?;
    let (sink, sender) = one_sender(rt, alloc, output, schema, None)?;
    let mut sender = sender;
    let written = feed_all(&mut sender, schema, chunks) && is_raised(writes);
    Ok(result_of(ended(sink, sender, room)).is_ok() && written)
}

/// Whether a sink that counts its writes writes one chunk before it is asked to end.
fn writes_one<H>(rt: H, alloc: Global) -> Result<bool, Fail>
where
    H: Threads + Wait + Copy + Send + 'static,
{
    let count = Arc::new(alloc, AtomicU64::new(0))?;
    let schema = texts(alloc)?;
    let chunks = blank_chunks(alloc, 1)?;
    let output = Counting {
        writes: Arc::try_clone(&count)?,
        faults: 0,
    };
    writes(rt, alloc, &count, output, &schema, chunks)
}

#[test]
fn writes_before_close(rt: HostRuntime) -> Result<(), Fail> {
    hold(writes_one(rt, rt.alloc()))
}
