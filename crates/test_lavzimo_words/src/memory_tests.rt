//! Calls that want memory: `rt try --test --fail-alloc N` refuses the allocation of number N.

use crate::words::{columns_in, is_set, is_usual, words_of};
use lavzimo_words::{Columns, Reading, Source, query_of, read_words, shown_columns};
use std::alloc::{AllocError, Global};
use std::test::Fail;

/// What is read in words: settings of a run, none, why they are refused, or help.
#[derive(Clone, Copy, PartialEq, Eq)]
enum Read {
    Settings,
    Usual,
    Refusal,
    Help,
    Other,
}

/// Words, and what is read in them.
const READ: [(&[&str], Read); 4] = [
    (
        &[
            "--count",
            "--format",
            "json",
            "--workers",
            "3",
            "--partitions",
            "4",
            "--spill-dir",
            "dir",
            "a.csv",
            "--",
            "--sum",
        ],
        Read::Settings,
    ),
    (
        &[
            "--by", "k", "--count", "--mean", "n=m", "--order", "-m", "--limit", "1",
        ],
        Read::Usual,
    ),
    (&["--by", "a,b=a"], Read::Refusal),
    (&["--help"], Read::Help),
];

/// Which of these a reading is.
fn kind_of(reading: &Reading) -> Read {
    match reading {
        Reading::Asked(asked) if is_set(asked) => Read::Settings,
        Reading::Asked(asked) if is_usual(asked) => Read::Usual,
        Reading::Refused(_) => Read::Refusal,
        Reading::Help(_) => Read::Help,
        _ => Read::Other,
    }
}

/// What is read in words.
fn read_in(alloc: Global, words: &[&str]) -> Result<Reading, Fail> {
    let words = words_of(alloc, words)?;
    match read_words(alloc, &words) {
        Ok(reading) => Ok(reading),
        Err(AllocError) => Err("read_words wants memory".into()),
    }
}

/// Whether this is read in words.
fn is_read(alloc: Global, words: &[&str], want: Read) -> Result<bool, Fail> {
    let reading = read_in(alloc, words)?;
    Ok(kind_of(&reading) == want)
}

/// Whether words are read as the table has it.
fn are_read(alloc: Global) -> Result<bool, Fail> {
    for (words, want) in &READ {
        if !is_read(alloc, *words, *want)? {
            return Ok(false);
        }
    }
    Ok(true)
}

#[test]
fn memory_for_words(rt: HostRuntime) -> Result<(), Fail> {
    assert!(rt; are_read(rt.alloc())?);
    Ok(())
}

/// How many aggregates the query of columns has.
fn agg_count(alloc: Global, columns: &Columns) -> Result<usize, Fail> {
    match query_of(alloc, columns) {
        Ok(query) => Ok(query.aggs.len()),
        Err(AllocError) => Err("query_of wants memory".into()),
    }
}

/// Whether columns come from these places of the answer.
fn come_from(alloc: Global, columns: &Columns, want: &[Source]) -> Result<bool, Fail> {
    match shown_columns(alloc, &columns.columns) {
        Ok(sources) => Ok(sources.as_slice() == want),
        Err(AllocError) => Err("shown_columns wants memory".into()),
    }
}

/// Whether columns make two aggregates, of which the second is a mean, behind a key.
fn end_in_a_mean(alloc: Global, columns: &Columns) -> Result<bool, Fail> {
    let places = [Source::Value(0), Source::Value(1), Source::Mean(2)];
    Ok(come_from(alloc, columns, &places)? && agg_count(alloc, columns)? == 2)
}

/// Whether that is so of words.
fn ask_for_a_mean(alloc: Global) -> Result<bool, Fail> {
    let reading = read_in(alloc, &["--by", "k", "--min", "d:date", "--mean", "n"])?;
    match columns_in(&reading) {
        Some(columns) => end_in_a_mean(alloc, columns),
        None => Ok(false),
    }
}

#[test]
fn memory_for_a_query_and_places(rt: HostRuntime) -> Result<(), Fail> {
    assert!(rt; ask_for_a_mean(rt.alloc())?);
    Ok(())
}
