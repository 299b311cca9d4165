//! A sink for which no thread can be had: its sender keeps all that it takes, and waits for nobody.

use crate::made::{Counting, blank_chunks, texts};
use crate::sinks::{ended, feed_all, hold, one_sender, result_of};
use pipe_columns::{DataChunk, Schema};
use std::alloc::Global;
use std::sync::atomic::{AtomicU64, Ordering};
use std::sync::{Arc, Wait};
use std::test::Fail;
use std::thread::Threads;

/// A stack that no thread can have.
const TOO_LARGE: usize = 1 << 60;

/// Whether a sink without a thread writes nothing before it is asked to end, and something then.
fn writes_late<H>(
    rt: H,
    alloc: Global,
    writes: &AtomicU64,
    output: Counting,
    schema: &Schema,
    chunks: Vec<DataChunk>,
) -> Result<bool, Fail>
where
    H: Threads + Wait + Copy + Send + 'static,
{
    let room = Vec::with_capacity(alloc, 1)?;
    let (sink, sender) = one_sender(rt, alloc, output, schema, Some(TOO_LARGE))?;
    let mut sender = sender;
    let kept = feed_all(&mut sender, schema, chunks) && writes.load(Ordering::SeqCst) == 0;
    let ends = result_of(ended(sink, sender, room)).is_ok();
    Ok(kept && ends && writes.load(Ordering::SeqCst) != 0)
}

/// Whether a sink without a thread keeps more chunks than its channel would hold.
fn keeps_many<H>(rt: H, alloc: Global) -> Result<bool, Fail>
where
    H: Threads + Wait + Copy + Send + 'static,
{
    let count = Arc::new(alloc, AtomicU64::new(0))?;
    let schema = texts(alloc)?;
    let chunks = blank_chunks(alloc, 5)?;
    let output = Counting {
        writes: Arc::try_clone(&count)?,
        faults: 0,
    };
    writes_late(rt, alloc, &count, output, &schema, chunks)
}

#[test]
fn chunks_wait_without_a_thread(rt: HostRuntime) -> Result<(), Fail> {
    hold(keeps_many(rt, rt.alloc()))
}
