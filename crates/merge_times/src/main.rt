//! What a row costs that a table of groups is fed, in nanoseconds: `merge_times ROUNDS` says it of
//! rows that a chunk lends, and of rows that wait as bytes and are merged.
#![tactic(auto)]

mod asked;
mod lent;
mod merged;
mod rounds;
mod times;
mod waits;

use crate::asked::{ROWS, chunk_of, query_of};
use crate::rounds::Times;
use crate::times::times_of_query;
use std::env::{self, Env};
use std::io::Print;

/// How many rounds the first word asks for, if there is one.
fn rounds_of(rt: &(impl Env + Alloc)) -> anyhow::Result<Option<u32>> {
    match env::args(rt)?.nth(1) {
        Some(word) => Ok(Some(word.parse()?)),
        None => Ok(None),
    }
}

/// Prints times, as nanoseconds a row.
fn show(rt: &impl Print, times: Times) -> anyhow::Result<()> {
    println!(rt; "lent {}", times.lent / ROWS as u128)?;
    println!(rt; "waiting {}", times.waiting / ROWS as u128)?;
    Ok(())
}

/// Without a word one round is made, and nothing is printed.
fn main(rt: HostRuntime) -> anyhow::Result<()> {
    let alloc = rt.alloc();
    let asked = rounds_of(&rt)?;
    let query = query_of(alloc)?;
    let chunk = chunk_of(alloc)?;
    let times = times_of_query(&rt, alloc, &query, &chunk, asked.unwrap_or(1));
    drop(query);
    drop(chunk);
    let times = times?;
    if asked.is_some() {
        show(&rt, times)?;
    }
    Ok(())
}
