//! What runs of tests are asked: the sum of v by k, over rows of the key 2.

ghost use Rattle.std.specs.Prelude.{◌≡◌, ◌++◌, ◌∷◌, [], IfOk, OnOk};
ghost use Rattle.pipe_aggs.specs.QueryTrees.{query_tree};
ghost use Rattle.pipe_columns.specs.declared.data_type.DataType.TheVariants as dt;
ghost use Rattle.pipe_plan.specs.WorkedRuns.{row_at, sum_by_number};
ghost use Rattle.pipe_spill.specs.SpillRow.{spilled};
ghost use Rattle.test_partitions.specs.Asked.{sum_arena};

use pipe_aggs::{AExpr, Arena, IRAggExpr, Node, Query};
use pipe_columns::{AnyValue, DataType, Field, Place, Schema, Text};
use pipe_global::Blanks;
use pipe_spill::{SpillRow, Values, encode_key};
use std::alloc::{AllocError, Global};
use std::sync::ledger::Blank;
use std::test::Fail;

/// Adds an expression whose children are there.
fn add(arena: &mut Arena, expr: AExpr) -> Result<(), Fail>
    ensures { OnOk result (arena.new ≡ arena.old ++ expr ∷ []) }
{
    match arena.add(expr) {
        Ok(_) => Ok(()),
        Err(_) => Err("Arena::add wants memory".into()),
    }
}

/// The columns k and v, the sum of v, and its name s.
fn arena_of(alloc: Global) -> Result<Arena, Fail>
    ensures { IfOk result (λ a. a ≡ sum_arena) }
{
    let mut arena = Arena::new(alloc);
    add(&mut arena, AExpr::Column(Text::new(alloc, "k")?))?;
    add(&mut arena, AExpr::Column(Text::new(alloc, "v")?))?;
    add(&mut arena, AExpr::Agg(IRAggExpr::Sum(Node(1))))?;
    add(&mut arena, AExpr::Alias(Node(2), Text::new(alloc, "s")?))?;
    Ok(arena)
}

/// A field of numbers.
fn field_of(alloc: Global, name: &str) -> Result<Field, AllocError>
    ensures { IfOk result (λ f. f ≡ record { name = name.now; dtype = dt.Int64 }) }
{
    Ok(Field {
        name: Text::new(alloc, name)?,
        dtype: DataType::Int64,
    })
}

/// The sum of v by k, which are numbers.
pub(crate) fn query_of(alloc: Global) -> Result<Query, Fail>
    ensures { IfOk result (λ q. query_tree q ≡ sum_by_number) }
{
    let keys = vec![in alloc; Node(0)]?;
    let aggs = vec![in alloc; Node(3)]?;
    let fields = vec![in alloc; field_of(alloc, "k")?, field_of(alloc, "v")?]?;
    let arena = arena_of(alloc)?;
    Ok(Query {
        schema: Schema::new(fields),
        arena,
        keys,
        aggs,
        slice: None,
        maintain_order: false,
    })
}

/// A row of the key 2.
pub(crate) fn row(alloc: Global, chunk: u32, row: u32, input: u8) -> Result<SpillRow, AllocError>
    ensures { IfOk result (λ r. r ≡ spilled (dt.Int64 ∷ []) (row_at chunk row 2 (input ∷ []))) }
{
    Ok(SpillRow {
        place: Place { chunk, row },
        key: encode_key(alloc, &[AnyValue::Int(2)], &[DataType::Int64])?,
        values: Values::new(vec![in alloc; AnyValue::Int(input as i128)]?),
    })
}

/// Four blanks, for as many workers as partitions.
pub(crate) fn blanks(count: u64) -> Blanks
    ensures partitions { result.partitions.parts ≡ count }
    ensures workers { result.workers.parts ≡ count }
    ensures refusals { result.refusals.parts ≡ count }
    ensures faults { result.faults.parts ≡ count }
{
    Blanks {
        partitions: Blank::new(count),
        workers: Blank::new(count),
        refusals: Blank::new(count),
        faults: Blank::new(count),
    }
}
