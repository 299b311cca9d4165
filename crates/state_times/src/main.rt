//! What a row of a saved state costs that is written and read, in nanoseconds: `state_times ROUNDS`
//! says it beside what a row costs that is spilled. `state_times ROUNDS QUERY LOG` says what it takes
//! to read all states in a log, in microseconds.
#![tactic(auto)]

mod asked;
mod log;
mod read;
mod rounds;
mod rows;
mod times;
mod written;

use crate::asked::{GROUPS, query_of};
use crate::log::show_log;
use crate::rounds::Times;
use crate::times::times_of_query;
use std::env::{self, Env};
use std::io::Print;

/// How many rounds the first word asks for, if there is one.
fn rounds_of(rt: &(impl Env + Alloc)) -> anyhow::Result<Option<u32>> {
    match env::args(rt)?.nth(1) {
        Some(word) => Ok(Some(word.parse()?)),
        None => Ok(None),
    }
}

/// Prints times, as nanoseconds a row.
fn show(rt: &impl Print, times: Times) -> anyhow::Result<()> {
    println!(rt; "write_state {}", times.write_state / GROUPS as u128)?;
    println!(rt; "write_frame {}", times.write_frame / GROUPS as u128)?;
    println!(rt; "read_state {}", times.read_state / GROUPS as u128)?;
    println!(rt; "read_frame {}", times.read_frame / GROUPS as u128)?;
    Ok(())
}

/// Without a word one round is made, and nothing is printed.
fn show_rows(rt: &HostRuntime, asked: Option<u32>) -> anyhow::Result<()> {
    let alloc = rt.alloc();
    let query = query_of(alloc)?;
    let times = times_of_query(rt, alloc, &query, asked.unwrap_or(1));
    drop(query);
    let times = times?;
    if asked.is_some() {
        show(rt, times)?;
    }
    Ok(())
}

fn main(rt: HostRuntime) -> anyhow::Result<()> {
    let asked = rounds_of(&rt)?;
    match (env::args(&rt)?.nth(2), env::args(&rt)?.nth(3)) {
        (Some(query), Some(log)) => show_log(&rt, &query, &log, asked.unwrap_or(1)),
        _ => show_rows(&rt, asked),
    }
}
