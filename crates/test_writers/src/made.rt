//! Schemas, frames, chunks, writers and sinks of tests.

ghost use Rattle.std.specs.Prelude.{◌≡◌, ◌<◌, ◌≤◌, IfOk};
ghost use Rattle.pipe_writers.specs.Writers.{no_writer_calls};

use pipe_columns::{AnyValue, Column, DataChunk, DataFrame, DataType, Field, Schema, Text};
use pipe_files_sink::{CsvSink, CsvWriterOptions, FilesSink, JsonSink, JsonWriterOptions};
use pipe_io::{MemoryOutput, Output};
use pipe_writers::{CsvBatchedWriter, JsonBatchedWriter, copy_schema};
use std::alloc::{AllocError, Global};
use std::sync::Wait;
use std::thread::Threads;

/// One field of texts.
pub(crate) fn texts(alloc: Global) -> Result<Schema, AllocError> {
    let mut fields = Vec::new(alloc);
    let name = Text::new(alloc, "t")?;
    let dtype = DataType::String;
    fields.push(Field { name, dtype })?;
    Ok(Schema::new(fields))
}

/// A column of that field.
fn column_of(alloc: Global, values: Vec<AnyValue>) -> Result<Column, AllocError> {
    let name = Text::new(alloc, "t")?;
    Column::new(name, DataType::String, false, values).ok_or(AllocError)
}

/// A frame of that field.
fn frame_of_values(alloc: Global, values: Vec<AnyValue>) -> Result<DataFrame, AllocError> {
    let height = values.len();
    let columns = vec![in alloc; column_of(alloc, values)?]?;
    DataFrame::new(height, columns).ok_or(AllocError)
}

/// A frame of a row for each text.
pub(crate) fn frame_of(alloc: Global, rows: &[&str]) -> Result<DataFrame, AllocError> {
    let mut values = Vec::new(alloc);
    for row in rows {
        values.push(AnyValue::Text(Text::new(alloc, row)?))?;
    }
    frame_of_values(alloc, values)
}

/// A chunk of a row for each text.
pub(crate) fn chunk_of(
    alloc: Global,
    chunk_index: u32,
    rows: &[&str],
) -> Result<DataChunk, AllocError> {
    let frame = frame_of(alloc, rows)?;
    Ok(DataChunk { chunk_index, frame })
}

/// A chunk of so many rows without a text.
pub(crate) fn blank_rows(
    alloc: Global,
    chunk_index: u32,
    rows: usize,
) -> Result<DataChunk, AllocError> {
    let mut values = Vec::new(alloc);
    for _ in 0..rows {
        values.push(AnyValue::Null)?;
    }
    let frame = frame_of_values(alloc, values)?;
    Ok(DataChunk { chunk_index, frame })
}

/// The chunks 3, 1 and 0 of one row each.
pub(crate) fn three_chunks(alloc: Global) -> Result<Vec<DataChunk>, AllocError> {
    let mut chunks = Vec::new(alloc);
    for (number, row) in [(3, "c"), (1, "a"), (0, "b")] {
        chunks.push(chunk_of(alloc, number, &[row])?)?;
    }
    Ok(chunks)
}

/// An output in memory of which the listed calls fail.
pub(crate) fn output(alloc: Global, failing: &[u64]) -> Result<MemoryOutput, AllocError> {
    Ok(MemoryOutput::new(alloc, Vec::from_slice(alloc, failing)?))
}

/// A writer of CSV with the names in front.
pub(crate) fn csv_writer<O: Output + Drop>(
    alloc: Global,
    output: O,
    schema: &Schema,
) -> Result<CsvBatchedWriter<O>, AllocError>
    ensures schema { IfOk result (λ w. w.lines.schema ≡ schema.now) }
    ensures calls { IfOk result (λ w. w.calls ≡ no_writer_calls) }
{
    let schema = copy_schema(alloc, schema)?;
    Ok(CsvBatchedWriter::new(alloc, output, schema, true))
}

/// A writer of lines of JSON.
pub(crate) fn json_writer<O: Output + Drop>(
    alloc: Global,
    output: O,
    schema: &Schema,
) -> Result<JsonBatchedWriter<O>, AllocError>
    ensures schema { IfOk result (λ w. w.lines.schema ≡ schema.now) }
    ensures calls { IfOk result (λ w. w.calls ≡ no_writer_calls) }
{
    let schema = copy_schema(alloc, schema)?;
    Ok(JsonBatchedWriter::new(alloc, output, schema))
}

/// A sink of CSV with the names in front, in pieces of so many chunks.
pub(crate) fn csv_sink<O, H>(
    rt: H,
    alloc: Global,
    output: O,
    schema: &Schema,
    maintain_order: bool,
    morsels_per_sink: usize,
) -> Result<FilesSink<CsvBatchedWriter<O>, H>, AllocError>
where
    O: Output + Drop + Send + 'static,
    H: Threads + Wait + Copy + Send + 'static,
    requires some { 0 < morsels_per_sink }
    requires few { morsels_per_sink ≤ 4096 }
    ensures { IfOk result (λ s. s.schema ≡ schema.now) }
{
    let schema = copy_schema(alloc, schema)?;
    let options = CsvWriterOptions {
        include_header: true,
        maintain_order,
        morsels_per_sink,
    };
    CsvSink::new(rt, alloc, output, schema, options)
}

/// A sink of lines of JSON, in pieces of two chunks.
pub(crate) fn json_sink<O, H>(
    rt: H,
    alloc: Global,
    output: O,
    schema: &Schema,
    maintain_order: bool,
) -> Result<FilesSink<JsonBatchedWriter<O>, H>, AllocError>
where
    O: Output + Drop + Send + 'static,
    H: Threads + Wait + Copy + Send + 'static,
    ensures { IfOk result (λ s. s.schema ≡ schema.now) }
{
    let schema = copy_schema(alloc, schema)?;
    let options = JsonWriterOptions {
        maintain_order,
        morsels_per_sink: 2,
    };
    JsonSink::new(rt, alloc, output, schema, options)
}
