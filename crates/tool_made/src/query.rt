//! The query that generated rows are asked.

ghost use Rattle.std.specs.Prelude.{◌≡◌, ◌++◌, ◌∷◌, [], IfOk, None, OnOk};
ghost use Rattle.pipe_aggs.specs.Faults.{first_fault};
ghost use Rattle.pipe_aggs.specs.QueryTrees.{query_tree};
ghost use Rattle.tool_made.specs.MadeQuery.{made_tree};

use pipe_aggs::{AExpr, Arena, IRAggExpr, Node, Query};
use pipe_columns::{DataType, Field, Schema, Text};
use std::alloc::{AllocError, Global};

/// Adds an expression whose parts are there.
fn add(arena: &mut Arena, expr: AExpr) -> Result<(), AllocError>
    ensures { OnOk result (arena.new ≡ arena.old ++ expr ∷ []) }
{
    match arena.add(expr) {
        Ok(_) => Ok(()),
        Err(_) => Err(AllocError),
    }
}

/// The sum of `v` by `k`, over the columns `k` and `v` of type Int64.
pub fn made_query(alloc: Global) -> Result<Query, AllocError>
    ensures query { IfOk result (λ q. query_tree q ≡ made_tree) }
    ensures faultless { IfOk result (λ q. first_fault q ≡ None) }
{
    let (k, v) = (Text::new(alloc, "k")?, Text::new(alloc, "v")?);
    let mut arena = Arena::new(alloc);
    add(&mut arena, AExpr::Column(k.try_clone(alloc)?))?;
    add(&mut arena, AExpr::Column(v.try_clone(alloc)?))?;
    add(&mut arena, AExpr::Agg(IRAggExpr::Sum(Node(1))))?;
    let dtype = DataType::Int64;
    let fields = vec![in alloc; Field { name: k, dtype }, Field { name: v, dtype }]?;
    Ok(Query {
        schema: Schema::new(fields),
        arena,
        keys: vec![in alloc; Node(0)]?,
        aggs: vec![in alloc; Node(2)]?,
        slice: None,
        maintain_order: false,
    })
}
