//! The columns that a query names, and the query over these alone.

ghost use Rattle.std.specs.Prelude.{◌≡◌, All, ℕ, IfOk, List, None, map, true};
ghost use Rattle.std.specs.List.{list_any};
ghost use Rattle.pipe_columns.specs.declared.data_chunk.DataChunk.{DataChunk};
ghost use Rattle.pipe_columns.specs.Frame.{FitsSchema};
ghost use Rattle.pipe_aggs.specs.Faults.{first_fault};
ghost use Rattle.pipe_aggs.specs.QueryTrees.{query_tree};
ghost use Rattle.pipe_exprs.specs.Literals.{HaveUtf8Literals};
ghost use Rattle.pipe_model.specs.Answer.{answer};
ghost use Rattle.narrow_query.specs.Names.{covers, is_column, named_fields};
ghost use Rattle.narrow_query.specs.Narrowed.{narrowed_query};
ghost use Rattle.narrow_columns.specs.Wanted.{narrowed_chunks};

use narrow_columns::chosen_schema;
use pipe_aggs::Query;
use pipe_columns::{Field, Schema, Text};
use pipe_exprs::{AExpr, Arena, Node};
use std::alloc::{AllocError, Global};

/// A query over the columns that it names alone, the schema of all columns, and which of these it
/// names.
#[derive(Drop)]
pub struct Narrowed {
    pub schema: Schema,
    pub wanted: Vec<bool>,
    pub query: Query,
}

/// Whether an expression is the column of a name.
fn is_column(expr: &AExpr, name: &Text) -> bool
    ensures { result ≡ is_column name.now expr.now }
{
    match expr {
        AExpr::Column(column) => *name == *column,
        _ => false,
    }
}

/// Whether an expression of an arena is the column of a name.
fn is_named(arena: &Arena, name: &Text) -> bool
    ensures named { result ≡ list_any (is_column name.now) arena.now }
    ensures texts { HaveUtf8Literals arena.now }
{
    for place in 0..arena.len() {
        if is_column(arena.get(Node(place)), name) {
            return true;
        }
    }
    false
}

/// Which fields the expressions of an arena name.
fn named_fields(alloc: Global, arena: &Arena, fields: &[Field]) -> Result<Vec<bool>, AllocError>
    ensures { IfOk result (λ v. v.items ≡ named_fields arena.now fields.now) }
{
    fields
        .iter()
        .map(|field| is_named(arena, &field.name))
        .collect(alloc)
}

/// The query over the columns that it names alone: it is without fault too, and answers over chunks
/// of these what the query answers over the whole ones.
pub fn narrow(alloc: Global, query: Query) -> Result<Narrowed, AllocError>
    requires { first_fault query ≡ None }
    ensures schema { IfOk result (λ n. n.schema ≡ query.schema) }
    ensures wanted { IfOk result (λ n. n.wanted.items ≡ named_fields query.arena query.schema) }
    ensures query { IfOk result (λ n. n.query ≡ narrowed_query n.wanted.items query) }
    ensures faultless { IfOk result (λ n. first_fault n.query ≡ None) }
    ensures covered { IfOk result (λ n. covers n.wanted.items (query_tree query) ≡ true) }
    ensures answer { IfOk result (λ n. (chunks : List DataChunk) (partitions : ℕ)
        → All (λ c. FitsSchema query.schema c.frame) chunks
        → answer (narrowed_chunks n.wanted.items chunks) (query_tree n.query) partitions
        ≡ answer chunks (query_tree query) partitions) }
{
    let Query {
        schema,
        arena,
        keys,
        aggs,
        slice,
        maintain_order,
    } = query;
    // Called for what its clauses say.
    let _count = arena.len();
    let wanted = named_fields(alloc, &arena, schema.fields())?;
    let narrower = chosen_schema(alloc, &wanted, schema.fields())?;
    let query = Query {
        schema: narrower,
        arena,
        keys,
        aggs,
        slice,
        maintain_order,
    };
    Ok(Narrowed {
        schema,
        wanted,
        query,
    })
}
