//! A million rows of three columns, in chunks, and where they go.

ghost use Rattle.std.specs.Prelude.{◌<◌, ◌≤◌, IfOk, IsErrOf, None, length};
ghost use Rattle.pipe_columns.specs.Causes.{HasCause};
ghost use Rattle.pipe_io.specs.declared.output.OutputError.TheVariants as output_error;

use anyhow::Context;
use pipe_columns::{AnyValue, Column, DataChunk, DataFrame, DataType, Field, Schema, Text};
use pipe_io::{Output, OutputError};
use std::alloc::{AllocError, Global};

/// How many rows there are.
pub(crate) const ROWS: usize = 1_000_000;

/// How many rows a chunk has at most.
const CHUNK: usize = 4096;

/// An output that forgets what it is given.
#[derive(Drop)]
pub(crate) struct Nowhere;

impl Output for Nowhere {
    ghost told = { λ s. None };

    ghost faults = { λ s. 0 };

    fn write(&mut self, piece: &[u8]) -> Result<usize, OutputError>
        requires { 0 < length piece.now }
        ensures some { IfOk result (λ n. 0 < n) }
        ensures bound { IfOk result (λ n. n ≤ length piece.now) }
        ensures cause { HasCause 0 0 (IsErrOf result output_error.Failed) }
    {
        Ok(piece.len())
    }
}

/// The columns id, value and name: two of integers and one of texts.
pub(crate) fn schema_of(alloc: Global) -> Result<Schema, AllocError> {
    let mut fields = Vec::new(alloc);
    for (name, dtype) in [
        ("id", DataType::Int64),
        ("value", DataType::Int64),
        ("name", DataType::String),
    ] {
        let name = Text::new(alloc, name)?;
        fields.push(Field { name, dtype })?;
    }
    Ok(Schema::new(fields))
}

/// A column of integers: a factor times the number of each row, in a range.
fn numbers(
    alloc: Global,
    name: &str,
    rows: (usize, usize),
    factor: usize,
) -> anyhow::Result<Column> {
    let mut values = Vec::new(alloc);
    for row in rows.0..rows.1 {
        values.push(AnyValue::Int((row.wrapping_mul(factor) % 1_000_003) as i128))?;
    }
    let name = Text::new(alloc, name)?;
    Ok(Column::new(name, DataType::Int64, false, values).context("no column")?)
}

/// A column of texts.
fn names(alloc: Global, name: &str, rows: (usize, usize)) -> anyhow::Result<Column> {
    let words = ["north", "east", "south", "west", "north by north east"];
    let mut values = Vec::new(alloc);
    for row in rows.0..rows.1 {
        values.push(AnyValue::Text(Text::new(alloc, words[row % 5])?))?;
    }
    let name = Text::new(alloc, name)?;
    Ok(Column::new(name, DataType::String, false, values).context("no column")?)
}

/// The chunk of the rows from one number up to another.
fn chunk_of(alloc: Global, chunk_index: u32, rows: (usize, usize)) -> anyhow::Result<DataChunk> {
    let mut columns = Vec::new(alloc);
    columns.push(numbers(alloc, "id", rows, 1)?)?;
    columns.push(numbers(alloc, "value", rows, 7919)?)?;
    columns.push(names(alloc, "name", rows)?)?;
    Ok(DataChunk {
        chunk_index,
        frame: DataFrame::new(rows.1.saturating_sub(rows.0), columns).context("no frame")?,
    })
}

/// All chunks.
pub(crate) fn chunks_of(alloc: Global) -> anyhow::Result<Vec<DataChunk>> {
    let mut chunks = Vec::new(alloc);
    for number in 0..ROWS.div_ceil(CHUNK) {
        let from = number * CHUNK;
        let rows = (from, (from + CHUNK).min(ROWS));
        chunks.push(chunk_of(alloc, number as u32, rows)?)?;
    }
    Ok(chunks)
}
