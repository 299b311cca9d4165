//! What it takes to read the states in a log, by the query that they are of.

use crate::read::state_read;
use anyhow::Context;
use pipe_aggs::{CheckedQuery, Query};
use pipe_columns::Text;
use pipe_spill::Frames;
use std::alloc::Global;
use std::fs::{self, Files};
use std::io::Print;
use std::time::Clock;
use summary_log::read_log;
use tool_query::query_of_word;

/// What it takes to read the states of all frames, in nanoseconds.
fn states_read(
    rt: &impl Clock,
    alloc: Global,
    query: &CheckedQuery<'_>,
    frames: &Frames,
) -> anyhow::Result<u128> {
    let mut sum: u128 = 0;
    for frame in frames.as_slice() {
        sum = sum.saturating_add(state_read(rt, alloc, query, frame)?);
    }
    Ok(sum)
}

/// Reads the states of all frames in so many rounds, and prints what each takes, in microseconds.
fn show_rounds(
    rt: &(impl Clock + Print),
    alloc: Global,
    query: &CheckedQuery<'_>,
    frames: &Frames,
    rounds: u32,
) -> anyhow::Result<()> {
    for _round in 0..rounds {
        let time = states_read(rt, alloc, query, frames)?;
        println!(rt; "read_states {}", time / 1000)?;
    }
    Ok(())
}

/// The same where the query has no fault.
fn show_states(
    rt: &(impl Clock + Print),
    alloc: Global,
    query: &Query,
    frames: &Frames,
    rounds: u32,
) -> anyhow::Result<()> {
    match query.check(alloc) {
        Ok(checked) => show_rounds(rt, alloc, &checked, frames, rounds),
        Err(_) => None.context("a query with a fault"),
    }
}

/// The query of a word.
fn query_in(alloc: Global, word: &str) -> anyhow::Result<Query> {
    let word = Text::new(alloc, word)?;
    query_of_word(alloc, &word).ok().context("no query")
}

/// The frames of the log in a file.
fn frames_in(rt: &(impl Files + Alloc<A = Global>), path: &str) -> anyhow::Result<Frames> {
    let bytes = fs::read(rt, path)?;
    Ok(read_log(rt.alloc(), &bytes)?.frames)
}

/// Prints what it takes to read all states in a log, in so many rounds.
pub(crate) fn show_log(
    rt: &(impl Clock + Print + Files + Alloc<A = Global>),
    query: &str,
    path: &str,
    rounds: u32,
) -> anyhow::Result<()> {
    let frames = frames_in(rt, path)?;
    let query = query_in(rt.alloc(), query)?;
    show_states(rt, rt.alloc(), &query, &frames, rounds)
}
