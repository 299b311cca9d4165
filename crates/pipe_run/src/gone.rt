//! Chunks that a run has fed.

use pipe_columns::{DataChunk, DataFrame};
use pipe_threads::for_each_beside;
use std::alloc::Global;
use std::thread::Threads;

/// Drops the frame of a chunk.
fn drop_frame(alloc: Global, chunk: &mut DataChunk) {
    chunk.frame = DataFrame::new(0, Vec::new(alloc)).unwrap();
}

/// Drops chunks that a round of so many workers has taken: where there were several, their frames go in as
/// many threads.
pub fn drop_chunks<H: Threads + Sync>(
    rt: &H,
    alloc: Global,
    workers: usize,
    mut chunks: Vec<DataChunk>,
) {
    if workers > 1 {
        for_each_beside(
            rt,
            chunks.as_mut_slice(),
            workers,
            &|_, chunk| { drop_frame(alloc, chunk) },
        );
    }
}
