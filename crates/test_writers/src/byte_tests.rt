//! Outputs that take one byte at a time, of which each fails in turn.

use crate::fed::write_all;
use crate::hold::hold;
use crate::made::{csv_writer, json_writer, output, texts, three_chunks};
use crate::outputs::Bytewise;
use pipe_columns::{DataChunk, Schema};
use pipe_writers::WriteError;
use std::alloc::{AllocError, Global};
use std::test::Fail;

const CSV: &[u8] = b"t\na\nc\nb\n";

const JSON: &[u8] = b"{\"t\":\"a\"}\n{\"t\":\"c\"}\n{\"t\":\"b\"}\n";

/// Whether a text was written up to the byte that fails, and all of it where none does.
fn is_front(written: Result<(), WriteError>, told: &[u8], text: &[u8], failing: usize) -> bool {
    if failing > text.len() || told != &text[..failing] {
        return false;
    }
    if failing == text.len() {
        written == Ok(())
    } else {
        written == Err(WriteError::Output)
    }
}

/// Whether the text of CSV is written up to the byte that fails.
fn is_front_of_csv(
    alloc: Global,
    schema: &Schema,
    chunks: Vec<DataChunk>,
    failing: usize,
) -> Result<bool, AllocError> {
    let output = Bytewise(output(alloc, &[failing as u64])?);
    let writer = csv_writer(alloc, output, schema)?;
    let (written, writer) = write_all(alloc, writer, schema, chunks);
    Ok(is_front(written, writer.into_output().0.bytes(), CSV, failing))
}

/// Whether the lines of JSON are written up to the byte that fails.
fn is_front_of_json(
    alloc: Global,
    schema: &Schema,
    chunks: Vec<DataChunk>,
    failing: usize,
) -> Result<bool, AllocError> {
    let output = Bytewise(output(alloc, &[failing as u64])?);
    let writer = json_writer(alloc, output, schema)?;
    let (written, writer) = write_all(alloc, writer, schema, chunks);
    Ok(is_front(written, writer.into_output().0.bytes(), JSON, failing))
}

/// Whether that is so of each byte.
fn are_fronts(alloc: Global, schema: &Schema) -> Result<bool, AllocError> {
    for failing in 0..=CSV.len() {
        if !is_front_of_csv(alloc, schema, three_chunks(alloc)?, failing)? {
            return Ok(false);
        }
    }
    for failing in 0..=JSON.len() {
        if !is_front_of_json(alloc, schema, three_chunks(alloc)?, failing)? {
            return Ok(false);
        }
    }
    Ok(true)
}

#[test]
fn each_byte_fails_in_turn(rt: HostRuntime) -> Result<(), Fail> {
    let schema = texts(rt.alloc())?;
    hold(are_fronts(rt.alloc(), &schema))
}
