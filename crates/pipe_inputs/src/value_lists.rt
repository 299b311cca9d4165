//! What a query's keys and inputs are in the rows of a chunk.

ghost use Rattle.std.specs.Prelude.{◌≡◌, IfOk, OnOk, map, true};
ghost use Rattle.pipe_columns.specs.Frame.{fields_of, FitsSchema};
ghost use Rattle.pipe_exprs.specs.Evaluated.{items_of, row_values};
ghost use Rattle.pipe_model.specs.Groupable.{is_fed};
ghost use Rattle.pipe_aggs.specs.CheckedQuery.{IsSound};
ghost use Rattle.pipe_aggs.specs.HashAggs.{input_of, IsThere};
ghost use Rattle.pipe_aggs.specs.QueryTrees.{query_tree};
ghost use Rattle.pipe_inputs.specs.Cells.{input_values};

use pipe_aggs::{AggInput, Arena, CheckedQuery, ColumnValues, PipedExpr};
use pipe_columns::DataChunk;
use std::alloc::{AllocError, Global};

/// The values of the keys of a query.
pub(crate) fn key_lists<'a>(
    alloc: Global,
    query: &CheckedQuery<'_>,
    chunk: &'a DataChunk,
) -> Result<Vec<ColumnValues<'a>>, AllocError>
    requires { FitsSchema query.now.schema chunk.now.frame }
    ensures values { IfOk result (λ lists. map items_of lists.items
        ≡ map (λ e. row_values e chunk.now.frame) (query_tree query.now).keys) }
    ensures sound { OnOk result (IsSound query.now) }
{
    let query = query.query();
    let mut lists = Vec::with_capacity(alloc, query.keys.len())?;
    for key in &query.keys {
        let expr = PipedExpr { node: *key };
        lists.push(expr.values(alloc, &query.arena, chunk)?)?;
    }
    Ok(lists)
}

/// The values that an aggregate is fed: no list where only rows count.
fn input_list<'a>(
    alloc: Global,
    input: &AggInput,
    arena: &Arena,
    chunk: &'a DataChunk,
) -> Result<ColumnValues<'a>, AllocError>
    requires there { IsThere arena.now input.now }
    requires fed { is_fed (fields_of chunk.now.frame.columns) (input_of arena.now input.now)
        ≡ true }
    ensures { IfOk result (λ values. items_of values
        ≡ input_values (input_of arena.now input.now) chunk.now.frame) }
{
    match input {
        AggInput::Expr(expr) => expr.values(alloc, arena, chunk),
        AggInput::Len(_) => Ok(ColumnValues::Own(Vec::new(alloc))),
    }
}

/// The values that the aggregates of a query are fed.
pub(crate) fn input_lists<'a>(
    alloc: Global,
    query: &CheckedQuery<'_>,
    chunk: &'a DataChunk,
) -> Result<Vec<ColumnValues<'a>>, AllocError>
    requires { FitsSchema query.now.schema chunk.now.frame }
    ensures { IfOk result (λ lists. map items_of lists.items
        ≡ map (λ a. input_values a.input chunk.now.frame) (query_tree query.now).aggs) }
{
    let arena = &query.query().arena;
    let inputs = query.inputs();
    let mut lists = Vec::with_capacity(alloc, inputs.len())?;
    for input in inputs {
        lists.push(input_list(alloc, input, arena, chunk)?)?;
    }
    Ok(lists)
}
