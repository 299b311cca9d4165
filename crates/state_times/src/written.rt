//! What it takes to write a state, and a frame of rows.

ghost use Rattle.pipe_aggs.specs.QueryTrees.{query_tree};
ghost use Rattle.pipe_spill.specs.SpillRow.{HaveInputs};
ghost use Rattle.pipe_states.specs.Fair.{IsStateOf};

use pipe_aggs::CheckedQuery;
use pipe_columns::DataType;
use pipe_spill::{SpillRow, write_frame};
use pipe_states::{StateFile, write_state};
use std::alloc::Global;
use std::time::{Clock, Instant};

/// What it takes to write a state, in nanoseconds.
pub(crate) fn state_written(
    rt: &impl Clock,
    alloc: Global,
    query: &CheckedQuery<'_>,
    file: &StateFile,
) -> anyhow::Result<u128>
    requires { IsStateOf (query_tree query.now) file.now }
{
    let start = Instant::now(rt)?;
    let _text = write_state(alloc, query, file)?;
    Ok(start.elapsed(rt)?.as_nanos())
}

/// What it takes to write a frame, in nanoseconds.
pub(crate) fn frame_written(
    rt: &impl Clock,
    alloc: Global,
    rows: &[SpillRow],
    types: &[DataType],
) -> anyhow::Result<u128>
    requires { HaveInputs types.now rows.now }
{
    let start = Instant::now(rt)?;
    let _frame = write_frame(alloc, rows, types)?;
    Ok(start.elapsed(rt)?.as_nanos())
}
