//! Rounds: in each all is written once and read once.

ghost use Rattle.pipe_aggs.specs.QueryTrees.{query_tree};
ghost use Rattle.pipe_spill.specs.SpillRow.{HaveInputs};
ghost use Rattle.pipe_states.specs.Fair.{IsStateOf};

use crate::read::{frame_read, state_read};
use crate::written::{frame_written, state_written};
use pipe_aggs::CheckedQuery;
use pipe_columns::DataType;
use pipe_spill::SpillRow;
use pipe_states::StateFile;
use std::alloc::Global;
use std::time::Clock;

/// What is written and read: a state and its bytes, and rows, their types and the bytes of their
/// frame.
#[derive(Clone, Copy)]
pub(crate) struct Both<'a> {
    pub(crate) file: &'a StateFile,
    pub(crate) text: &'a [u8],
    pub(crate) rows: &'a [SpillRow],
    pub(crate) types: &'a [DataType],
    pub(crate) frame: &'a [u8],
}

/// What it takes to write and to read all, in nanoseconds.
#[derive(Clone, Copy)]
pub(crate) struct Times {
    pub(crate) write_state: u128,
    pub(crate) write_frame: u128,
    pub(crate) read_state: u128,
    pub(crate) read_frame: u128,
}

/// One round.
fn round(
    rt: &impl Clock,
    alloc: Global,
    query: &CheckedQuery<'_>,
    both: Both<'_>,
) -> anyhow::Result<Times>
    requires of_query { IsStateOf (query_tree query.now) both.file.now }
    requires typed { HaveInputs both.types.now both.rows.now }
{
    Ok(Times {
        write_state: state_written(rt, alloc, query, both.file)?,
        write_frame: frame_written(rt, alloc, both.rows, both.types)?,
        read_state: state_read(rt, alloc, query, both.text)?,
        read_frame: frame_read(rt, alloc, query, both.frame, both.types)?,
    })
}

/// The least of so many rounds, one at least.
pub(crate) fn least_times(
    rt: &impl Clock,
    alloc: Global,
    query: &CheckedQuery<'_>,
    both: Both<'_>,
    rounds: u32,
) -> anyhow::Result<Times>
    requires of_query { IsStateOf (query_tree query.now) both.file.now }
    requires typed { HaveInputs both.types.now both.rows.now }
{
    let mut least = round(rt, alloc, query, both)?;
    for _round in 1..rounds {
        let times = round(rt, alloc, query, both)?;
        least.write_state = least.write_state.min(times.write_state);
        least.write_frame = least.write_frame.min(times.write_frame);
        least.read_state = least.read_state.min(times.read_state);
        least.read_frame = least.read_frame.min(times.read_frame);
    }
    Ok(least)
}
