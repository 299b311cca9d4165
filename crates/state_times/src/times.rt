//! What it takes to write and to read a state, beside a frame of as many rows.

ghost use Rattle.std.specs.Prelude.{[], ◌∷◌};
ghost use Rattle.pipe_aggs.specs.QueryTrees.{query_tree};
ghost use Rattle.pipe_columns.specs.declared.data_type.DataType.TheVariants as dt;
ghost use Rattle.pipe_spill.specs.SpillRow.{HaveInputs};
ghost use Rattle.pipe_states.specs.Fair.{IsStateOf};

use crate::asked::state_of;
use crate::rounds::{Both, Times, least_times};
use crate::rows::rows_of;
use anyhow::Context;
use pipe_aggs::{CheckedQuery, Query};
use pipe_columns::DataType;
use pipe_spill::{SpillRow, write_frame};
use pipe_states::{StateFile, write_state};
use std::alloc::Global;
use std::time::Clock;

/// What a state and rows take.
fn times_of_rows(
    rt: &impl Clock,
    alloc: Global,
    query: &CheckedQuery<'_>,
    file: &StateFile,
    rows: &[SpillRow],
    rounds: u32,
) -> anyhow::Result<Times>
    requires of_query { IsStateOf (query_tree query.now) file.now }
    requires typed { HaveInputs (dt.Int64 ∷ dt.Int64 ∷ []) rows.now }
{
    let types = [DataType::Int64, DataType::Int64];
    let text = write_state(alloc, query, file)?;
    let frame = write_frame(alloc, rows, &types)?;
    let both = Both {
        file,
        text: &text,
        rows,
        types: &types,
        frame: &frame,
    };
    least_times(rt, alloc, query, both, rounds)
}

/// What a state of a checked query takes, and rows of the same keys.
fn times_of_checked(
    rt: &impl Clock,
    alloc: Global,
    query: &CheckedQuery<'_>,
    rounds: u32,
) -> anyhow::Result<Times> {
    let file = state_of(alloc, query)?;
    let rows = rows_of(alloc)?;
    times_of_rows(rt, alloc, query, &file, &rows, rounds)
}

/// What a state takes and rows do, where the query has no fault.
pub(crate) fn times_of_query(
    rt: &impl Clock,
    alloc: Global,
    query: &Query,
    rounds: u32,
) -> anyhow::Result<Times> {
    match query.check(alloc) {
        Ok(checked) => times_of_checked(rt, alloc, &checked, rounds),
        Err(_) => None.context("a query with a fault"),
    }
}
