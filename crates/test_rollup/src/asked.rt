//! What tests ask: the sum of v by k, of files in memory.

use pipe_columns::Text;
use pipe_io::{MemoryFiles, MemoryOutput};
use rollup_answer::run_rollup;
use std::alloc::{AllocError, Global};
use std::thread::Threads;

/// The sum s of v by k.
const QUERY: &str =
    r#"{"schema":[["k","Int64"],["v","Int64"]],"keys":["k"],"aggs":[{"alias":[{"sum":"v"},"s"]}]}"#;

/// The state of the row 1,5 in chunk 0.
pub(crate) const STATE: &[u8] =
    b"\0\0\0\0\0\0\0\x01\0\0\0\0\0\0\0\x01\0\0\0\0\0\0\0\0\0\0\0\0\0\0\0\x09\x01\x80\0\0\0\0\0\0\x01\x01\0\0\0\0\x01\0\0\0\0\x01\0\0\0\x01\x01\x80\0\0\0\0\0\0\x05";

/// Files: the row 1,5 as CSV, its state, that of the row 1,7 in chunk 1, and bytes that are none.
const FILES: [(&str, &[u8]); 4] = [
    ("a.csv", b"k,v\n1,5\n"),
    ("a", STATE),
    (
        "b",
        b"\0\0\0\x01\0\0\0\x02\0\0\0\0\0\0\0\x01\0\0\0\x01\0\0\0\0\0\0\0\0\0\0\0\x09\x01\x80\0\0\0\0\0\0\x01\x01\0\0\0\x01\x01\0\0\0\0\x01\0\0\0\x01\x01\x80\0\0\0\0\0\0\x07",
    ),
    ("cut", b"\0\0\0\x02\0\0\0\x02\0\0\0\0\0\0\0"),
];

/// A command with the query, and which calls of the input, the output and the one for messages fail, if
/// any does.
#[derive(Clone, Copy)]
pub(crate) struct Asked<'a> {
    pub(crate) mode: &'a str,
    pub(crate) third: &'a str,
    pub(crate) files: &'a [&'a str],
    pub(crate) input: Option<u64>,
    pub(crate) output: Option<u64>,
    pub(crate) messages: Option<u64>,
}

/// A command with no call that fails.
pub(crate) fn asks<'a>(mode: &'a str, third: &'a str, files: &'a [&'a str]) -> Asked<'a> {
    Asked {
        mode,
        third,
        files,
        input: None,
        output: None,
        messages: None,
    }
}

/// How a command ended.
#[derive(Drop)]
pub(crate) struct Ended {
    pub(crate) status: u8,
    pub(crate) written: Vec<u8>,
    pub(crate) told: Vec<u8>,
}

/// The calls that fail.
fn calls(alloc: Global, failing: Option<u64>) -> Result<Vec<u64>, AllocError> {
    let mut calls = Vec::new(alloc);
    if let Some(call) = failing {
        calls.push(call)?;
    }
    Ok(calls)
}

/// The files, of which a call may fail.
fn input_of(alloc: Global, failing: Option<u64>) -> Result<MemoryFiles, AllocError> {
    let failing = calls(alloc, failing)?;
    let mut files = Vec::new(alloc);
    for (name, bytes) in FILES {
        files.push((Text::new(alloc, name)?, Vec::from_slice(alloc, bytes)?))?;
    }
    Ok(MemoryFiles::new(files, failing))
}

/// An output, of which a call may fail.
fn output_of(alloc: Global, failing: Option<u64>) -> Result<MemoryOutput, AllocError> {
    Ok(MemoryOutput::new(alloc, calls(alloc, failing)?))
}

/// The words of a command.
fn words_of(alloc: Global, asked: Asked<'_>) -> Result<Vec<Text>, AllocError> {
    let mut words = Vec::new(alloc);
    for word in [asked.mode, QUERY, asked.third] {
        words.push(Text::new(alloc, word)?)?;
    }
    for name in asked.files {
        words.push(Text::new(alloc, name)?)?;
    }
    Ok(words)
}

/// How a command ends.
pub(crate) fn run_asked<H: Threads + Sync>(
    rt: &H,
    alloc: Global,
    asked: Asked<'_>,
) -> Result<Ended, AllocError> {
    let words = words_of(alloc, asked)?;
    let mut input = input_of(alloc, asked.input)?;
    let mut output = output_of(alloc, asked.output)?;
    let mut messages = output_of(alloc, asked.messages)?;
    let status = run_rollup(
        rt,
        alloc,
        1,
        None,
        &words,
        &mut input,
        &mut output,
        &mut messages,
    );
    let written = Vec::from_slice(alloc, output.bytes())?;
    let told = Vec::from_slice(alloc, messages.bytes())?;
    Ok(Ended {
        status,
        written,
        told,
    })
}

/// Whether a command ends with a status and exactly these bytes, of which the others are told.
pub(crate) fn ends<H: Threads + Sync>(
    rt: &H,
    alloc: Global,
    asked: Asked<'_>,
    status: u8,
    written: &[u8],
    told: &[u8],
) -> Result<bool, AllocError> {
    let end = run_asked(rt, alloc, asked)?;
    Ok(end.status == status && end.written.as_slice() == written && end.told.as_slice() == told)
}
