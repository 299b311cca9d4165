//! What tests save: two files in memory, by a query of some of their columns.

ghost use Rattle.std.specs.Prelude.{◌≡◌, IsTrue, None};
ghost use Rattle.pipe_aggs.specs.Faults.{first_fault};

use pipe_aggs::Query;
use pipe_columns::Text;
use pipe_csv::CsvError;
use pipe_io::MemoryFiles;
use pipe_query::query_of;
use rollup_save::save_files;
use serde_json::Value;
use std::alloc::{AllocError, Global};
use std::test::Fail;
use std::thread::Threads;

/// The sum and the first of `v` by `k` and `g`.
const QUERY: &str =
    r#"{"schema":[["k","Int64"],["x","String"],["g","Int64"],["v","Int64"]],"keys":["k","g"],"aggs":[{"alias":[{"sum":"v"},"s"]},{"alias":[{"first":"v"},"f"]}]}"#;

/// The names and the texts of two files.
const FILES: [(&str, &str); 2] = [
    ("a", "k,x,g,v\n1,p,1,5\n1,q,2,6\n2,r,1,7\n"),
    ("b", "k,x,g,v\n1,s,1,9\n"),
];

/// The position of the first chunk.
const FIRST: u32 = 7;

/// Files in memory, of which a call may fail.
fn input_of(alloc: Global, failing: Option<u64>) -> Result<MemoryFiles, AllocError> {
    let mut calls = Vec::new(alloc);
    if let Some(call) = failing {
        calls.push(call)?;
    }
    let mut files = Vec::new(alloc);
    for (name, text) in FILES {
        let name = Text::new(alloc, name)?;
        files.push((name, Vec::from_slice(alloc, text.as_bytes())?))?;
    }
    Ok(MemoryFiles::new(files, calls))
}

/// The names of the files.
fn names_of(alloc: Global) -> Result<Vec<Text>, AllocError> {
    let mut names = Vec::new(alloc);
    for (name, _) in FILES {
        names.push(Text::new(alloc, name)?)?;
    }
    Ok(names)
}

/// The query.
fn asked(alloc: Global) -> Result<Query, Fail> {
    let Ok(json) = Value::from_str(alloc, QUERY) else {
        return Err("JSON wants memory".into());
    };
    match query_of(alloc, &json)? {
        Some(query) => Ok(query),
        None => Err("no query".into()),
    }
}

/// Whether a query is without fault.
fn is_faultless(alloc: Global, query: &Query) -> bool
    ensures { IsTrue result → first_fault query.now ≡ None }
{
    query.check(alloc).is_ok()
}

/// What saving both files gives, where a call of the input may fail.
pub(crate) fn saved<H: Threads + Sync>(
    rt: &H,
    alloc: Global,
    failing: Option<u64>,
) -> Result<Result<Vec<u8>, CsvError>, Fail> {
    let query = asked(alloc)?;
    if !is_faultless(alloc, &query) {
        return Err("the check wants memory".into());
    }
    let names = names_of(alloc)?;
    let mut input = input_of(alloc, failing)?;
    Ok(save_files(rt, alloc, 2, None, query, FIRST, &mut input, names))
}

/// Whether a text is that of both files: it begins with the range and the number of rows, and the first
/// row has its least place, its key, its greatest place, its count and its results.
pub(crate) fn is_right(text: &[u8]) -> bool {
    text.len() == 217
        && text[..16] == [0, 0, 0, 7, 0, 0, 0, 9, 0, 0, 0, 0, 0, 0, 0, 3]
        && text[16..32] == [0, 0, 0, 7, 0, 0, 0, 0, 0, 0, 0, 0, 0, 0, 0, 18]
        && text[32..50] == [1, 128, 0, 0, 0, 0, 0, 0, 1, 1, 128, 0, 0, 0, 0, 0, 0, 1]
        && text[50..65] == [1, 0, 0, 0, 8, 1, 0, 0, 0, 0, 1, 0, 0, 0, 2]
        && text[65..83] == [1, 128, 0, 0, 0, 0, 0, 0, 14, 1, 128, 0, 0, 0, 0, 0, 0, 5]
}
