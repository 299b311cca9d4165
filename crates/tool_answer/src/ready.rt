//! What a question is run by.

ghost use Rattle.std.specs.Prelude.{◌≡◌, IfOk, None, true};
ghost use Rattle.pipe_aggs.specs.Faults.{first_fault};
ghost use Rattle.pipe_aggs.specs.QueryTrees.{query_tree};
ghost use Rattle.pipe_model.specs.Output.{output_schema};
ghost use Rattle.narrow_query.specs.Names.{covers, named_fields};
ghost use Rattle.narrow_query.specs.Narrowed.{narrowed_query};
ghost use Rattle.pipe_writers.specs.TextLines.{lines_shape};
ghost use Rattle.tool_answer.specs.Formats.{shape_in};

use narrow_query::{Narrowed, narrow};
use pipe_aggs::{CheckError, Query};
use pipe_columns::Schema;
use pipe_words::Format;
use pipe_writers::{Lines, TextLines, copy_schema};
use std::alloc::{AllocError, Global};

/// A query over the columns that it names alone, the schema of all columns, and which of these it
/// names; and how its groups become lines, with what stands in front of them.
#[derive(Drop)]
pub struct Ready {
    pub schema: Schema,
    pub wanted: Vec<bool>,
    pub query: Query,
    pub lines: TextLines,
    pub head: Vec<u8>,
}

/// Lines, and what stands in front of them.
#[derive(Drop)]
struct BegunLines {
    lines: TextLines,
    head: Vec<u8>,
}

/// The columns that a query gives.
fn output_of(alloc: Global, query: &Query) -> Result<Schema, AllocError>
    requires { first_fault query.now ≡ None }
    ensures { IfOk result (λ s. s ≡ output_schema (query_tree query.now)) }
{
    match query.check(alloc) {
        Ok(checked) => copy_schema(alloc, checked.output_schema()),
        Err(CheckError::Memory) => Err(AllocError),
        Err(CheckError::Fault(_)) => unreachable!(),
    }
}

/// How rows of a schema become lines in a format, and what stands in front of them.
fn begin_lines(alloc: Global, format: Format, schema: Schema) -> Result<BegunLines, AllocError>
    ensures lines { IfOk result (λ b. lines_shape b.lines ≡ shape_in format schema) }
    ensures head { IfOk result (λ b. b.head.items ≡ (shape_in format schema).head) }
{
    let lines = match format {
        Format::Csv => TextLines::csv(schema, true),
        Format::Json => TextLines::json(alloc, schema),
    };
    let head = lines.add_head(Vec::new(alloc))?;
    Ok(BegunLines { lines, head })
}

/// The same of the columns that a query gives.
fn begin_text(alloc: Global, format: Format, query: &Query) -> Result<BegunLines, AllocError>
    requires { first_fault query.now ≡ None }
    ensures lines { IfOk result (λ b. lines_shape b.lines
        ≡ shape_in format (output_schema (query_tree query.now))) }
    ensures head { IfOk result (λ b. b.head.items
        ≡ (shape_in format (output_schema (query_tree query.now))).head) }
{
    let schema = output_of(alloc, query)?;
    begin_lines(alloc, format, schema)
}

/// What a query is run by, to be answered in a format.
pub fn make_ready(alloc: Global, query: Query, format: Format) -> Result<Ready, AllocError>
    requires { first_fault query ≡ None }
    ensures schema { IfOk result (λ r. r.schema ≡ query.schema) }
    ensures wanted { IfOk result (λ r. r.wanted.items ≡ named_fields query.arena query.schema) }
    ensures query { IfOk result (λ r. r.query ≡ narrowed_query r.wanted.items query) }
    ensures faultless { IfOk result (λ r. first_fault r.query ≡ None) }
    ensures covered { IfOk result (λ r. covers r.wanted.items (query_tree query) ≡ true) }
    ensures lines { IfOk result (λ r. lines_shape r.lines
        ≡ shape_in format (output_schema (query_tree r.query))) }
    ensures head { IfOk result (λ r. r.head.items
        ≡ (shape_in format (output_schema (query_tree r.query))).head) }
{
    let narrowed = narrow(alloc, query)?;
    let begun = begin_text(alloc, format, &narrowed.query)?;
    let Narrowed {
        schema,
        wanted,
        query,
    } = narrowed;
    let BegunLines { lines, head } = begun;
    Ok(Ready {
        schema,
        wanted,
        query,
        lines,
        head,
    })
}
