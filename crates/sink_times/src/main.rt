//! What a row costs that a sink of files writes as CSV, in nanoseconds: `sink_times ROUNDS` says it of
//! a `FilesSink`, and of a `RuledFilesSink` with one sender.
#![tactic(auto)]

mod fed;
mod files;
mod made;
mod ruled;

use crate::files::files_time;
use crate::made::{ROWS, schema_of};
use crate::ruled::ruled_time;
use pipe_columns::Schema;
use std::alloc::Global;
use std::env::{self, Env};
use std::io::Print;
use std::sync::Wait;
use std::thread::Threads;
use std::time::Clock;

/// What all rows cost together, in nanoseconds.
#[derive(Clone, Copy)]
struct Times {
    files: u128,
    ruled: u128,
}

/// How many rounds the first word asks for, if there is one.
fn rounds_of(rt: &(impl Env + Alloc)) -> anyhow::Result<Option<u32>> {
    match env::args(rt)?.nth(1) {
        Some(word) => Ok(Some(word.parse()?)),
        None => Ok(None),
    }
}

/// One round: both costs, one after the other.
fn round<H>(rt: H, alloc: Global, schema: &Schema) -> anyhow::Result<Times>
where
    H: Threads + Wait + Clock + Copy + Send + 'static,
{
    let files = files_time(rt, alloc, schema)?;
    let ruled = ruled_time(rt, alloc, schema)?;
    Ok(Times { files, ruled })
}

/// The least costs of so many rounds, one at least.
fn least_times<H>(rt: H, alloc: Global, schema: &Schema, rounds: u32) -> anyhow::Result<Times>
where
    H: Threads + Wait + Clock + Copy + Send + 'static,
{
    let mut least = round(rt, alloc, schema)?;
    for _round in 1..rounds {
        let times = round(rt, alloc, schema)?;
        least.files = least.files.min(times.files);
        least.ruled = least.ruled.min(times.ruled);
    }
    Ok(least)
}

/// Prints times, as nanoseconds a row.
fn show(rt: &impl Print, times: Times) -> anyhow::Result<()> {
    println!(rt; "files {}", times.files / ROWS as u128)?;
    println!(rt; "ruled {}", times.ruled / ROWS as u128)?;
    Ok(())
}

/// Without a word one round is made, and nothing is printed.
fn main(rt: HostRuntime) -> anyhow::Result<()> {
    let asked = rounds_of(&rt)?;
    let schema = schema_of(rt.alloc())?;
    let times = least_times(rt, rt.alloc(), &schema, asked.unwrap_or(1));
    drop(schema);
    let times = times?;
    if asked.is_some() {
        show(&rt, times)?;
    }
    Ok(())
}
