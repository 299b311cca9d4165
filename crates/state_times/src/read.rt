//! What it takes to read a state, and a frame of rows.

use anyhow::Context;
use pipe_aggs::CheckedQuery;
use pipe_columns::DataType;
use pipe_spill::read_frame;
use pipe_states::read_state;
use std::alloc::Global;
use std::time::{Clock, Instant};

/// What it takes to read a state, in nanoseconds.
pub(crate) fn state_read(
    rt: &impl Clock,
    alloc: Global,
    query: &CheckedQuery<'_>,
    text: &[u8],
) -> anyhow::Result<u128> {
    let start = Instant::now(rt)?;
    let _file = read_state(alloc, query, text)?;
    Ok(start.elapsed(rt)?.as_nanos())
}

/// What it takes to read a frame of rows with the keys of a query, in nanoseconds.
pub(crate) fn frame_read(
    rt: &impl Clock,
    alloc: Global,
    query: &CheckedQuery<'_>,
    frame: &[u8],
    types: &[DataType],
) -> anyhow::Result<u128> {
    let start = Instant::now(rt)?;
    let _rows = read_frame(alloc, frame, query.key_types(), types)
        .ok()
        .context("no frame")?;
    Ok(start.elapsed(rt)?.as_nanos())
}
