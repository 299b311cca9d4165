//! What tests ask: the sum of v by k, and files with states of it.

use pipe_aggs::{CheckedQuery, Query};
use pipe_columns::{AnyValue, DataFrame, Text};
use pipe_io::MemoryFiles;
use pipe_query::query_of;
use rollup_roll::{RollError, roll_files};
use serde_json::Value;
use std::alloc::{AllocError, Global};
use std::test::Fail;

/// The sum s of v by k.
const QUERY: &str =
    r#"{"schema":[["k","Int64"],["v","Int64"]],"keys":["k"],"aggs":[{"alias":[{"sum":"v"},"s"]}]}"#;

/// Files: the states of the row 1,5 in chunk 0 and of the row 1,7 in chunk 1, and bytes that are
/// none.
const FILES: [(&str, &[u8]); 3] = [
    (
        "a",
        b"\0\0\0\0\0\0\0\x01\0\0\0\0\0\0\0\x01\0\0\0\0\0\0\0\0\0\0\0\0\0\0\0\x09\x01\x80\0\0\0\0\0\0\x01\x01\0\0\0\0\x01\0\0\0\0\x01\0\0\0\x01\x01\x80\0\0\0\0\0\0\x05",
    ),
    (
        "b",
        b"\0\0\0\x01\0\0\0\x02\0\0\0\0\0\0\0\x01\0\0\0\x01\0\0\0\0\0\0\0\0\0\0\0\x09\x01\x80\0\0\0\0\0\0\x01\x01\0\0\0\x01\x01\0\0\0\0\x01\0\0\0\x01\x01\x80\0\0\0\0\0\0\x07",
    ),
    ("cut", b"\0\0\0\x02\0\0\0\x02\0\0\0\0\0\0\0"),
];

/// The files, of which a call fails.
fn files_of(alloc: Global, failing: u64) -> Result<MemoryFiles, AllocError> {
    let mut files = Vec::new(alloc);
    for (name, bytes) in FILES {
        files.push((Text::new(alloc, name)?, Vec::from_slice(alloc, bytes)?))?;
    }
    Ok(MemoryFiles::new(files, Vec::from_slice(alloc, &[failing])?))
}

/// Rolls up by the first key.
fn by_first_key<'a>(
    alloc: Global,
    query: &'a CheckedQuery<'a>,
    input: &mut MemoryFiles,
    names: &[Text],
) -> Result<DataFrame, RollError> {
    if query.key_types().is_empty() {
        return Err(RollError::TooLarge);
    }
    roll_files(alloc, query, &[0], input, names)
}

/// What comes of files.
#[derive(Drop, PartialEq)]
pub(crate) enum Gives {
    /// The sum of one row.
    Sum(i128),
    /// Another frame.
    Frame,
    /// No frame.
    Error(RollError),
}

/// The sum of a frame of one row.
fn given_by(frame: &DataFrame) -> Gives {
    let columns = frame.columns();
    if columns.len() != 2 || columns[1].values().len() != 1 {
        return Gives::Frame;
    }
    match &columns[1].values()[0] {
        AnyValue::Int(sum) => Gives::Sum(*sum),
        _ => Gives::Frame,
    }
}

/// What comes of the files of some names.
fn rolled(
    alloc: Global,
    query: &CheckedQuery<'_>,
    names: &[Text],
    failing: u64,
) -> Result<Gives, AllocError> {
    let mut input = files_of(alloc, failing)?;
    match by_first_key(alloc, query, &mut input, names) {
        Ok(frame) => Ok(given_by(&frame)),
        Err(error) => Ok(Gives::Error(error)),
    }
}

/// What comes of the files of some names, by a query.
fn given(alloc: Global, query: &Query, names: &[&str], failing: u64) -> Result<Gives, Fail> {
    let mut texts = Vec::with_capacity(alloc, names.len())?;
    for name in names {
        texts.push(Text::new(alloc, name)?)?;
    }
    match query.check(alloc) {
        Ok(checked) => Ok(rolled(alloc, &checked, &texts, failing)?),
        Err(_) => Err("Query::check wants memory".into()),
    }
}

/// The query.
fn query(alloc: Global) -> Result<Query, Fail> {
    let Ok(json) = Value::from_str(alloc, QUERY) else {
        return Err("Value::from_str wants memory".into());
    };
    match query_of(alloc, &json)? {
        Some(query) => Ok(query),
        None => Err("no query".into()),
    }
}

/// What comes of the files of some names, where a call of the input fails.
pub(crate) fn come_of(alloc: Global, names: &[&str], failing: u64) -> Result<Gives, Fail> {
    let query = query(alloc)?;
    given(alloc, &query, names, failing)
}
