//! The running aggregate that an expression becomes, and what it is fed.

ghost use Rattle.std.specs.Prelude.{◌≡◌, ◌<◌, length, option_copied, false, true, IfOk, is_some};
ghost use Rattle.pipe_running.specs.declared.min_max.Direction.{Direction};
ghost use Rattle.pipe_model.specs.Convertible.{convertible, unaliased};
ghost use Rattle.pipe_aggs.specs.Faults.{adds_dates};
ghost use Rattle.pipe_aggs.specs.HashAggs.{extreme_function, function_for, input_of, IsThere, mean_function, sum_function};
ghost use Rattle.pipe_model.specs.Output.{input_type};
ghost use Rattle.pipe_model.specs.WrittenTree.{agg_tree, kept_kind};
ghost use Rattle.pipe_exprs.specs.Trees.{aggregation, tree};
ghost use Rattle.pipe_model.specs.Typing.{type_of};

use crate::known::Known;
use pipe_columns::{DataType, Schema};
use pipe_exprs::{AExpr, Arena, IRAggExpr, Len, Node, PipedExpr};
use pipe_running::{
    AggregateFunction, CountAgg, Direction, FirstAgg, LastAgg, MeanAgg, MinMaxAgg, NullAgg, SumAgg,
};
use std::alloc::{AllocError, Global};

/// What an aggregate is fed in each row: the value of an expression, or a null that stands for the
/// row.
#[derive(Drop)]
pub enum AggInput {
    Expr(PipedExpr),
    Len(Len),
}

/// An aggregate that a table of groups can keep: the type of what it is fed, what it is fed, and
/// its running aggregate before any row.
#[derive(Drop)]
pub struct HashAgg {
    pub input_dtype: DataType,
    pub input: AggInput,
    pub function: AggregateFunction,
}

/// The sum of values of a type.
fn sum_of(dtype: DataType) -> AggregateFunction
    ensures { result ≡ sum_function dtype }
{
    match dtype {
        DataType::Int8 | DataType::Int16 | DataType::Int64 | DataType::UInt8 | DataType::UInt16 =>
            AggregateFunction::SumI64(SumAgg::new()),
        DataType::Int32 => AggregateFunction::SumI32(SumAgg::new()),
        DataType::UInt32 | DataType::Boolean => AggregateFunction::SumU32(SumAgg::new()),
        DataType::UInt64 => AggregateFunction::SumU64(SumAgg::new()),
        DataType::Int128 | DataType::Date | DataType::String => {
            AggregateFunction::Null(NullAgg::new(dtype))
        }
    }
}

/// The mean of values of a type.
fn mean_of(dtype: DataType) -> AggregateFunction
    ensures { result ≡ mean_function dtype }
{
    match dtype {
        DataType::Int128 | DataType::Date | DataType::String => {
            AggregateFunction::Null(NullAgg::new(dtype))
        }
        _ => AggregateFunction::Mean(MeanAgg::new()),
    }
}

/// The least or the greatest of numbers of a type.
fn extreme_of(direction: Direction, dtype: DataType) -> AggregateFunction
    ensures { result ≡ extreme_function direction dtype }
{
    match dtype {
        DataType::Int8 => AggregateFunction::MinMaxI8(MinMaxAgg::new(direction)),
        DataType::Int16 => AggregateFunction::MinMaxI16(MinMaxAgg::new(direction)),
        DataType::Int32 => AggregateFunction::MinMaxI32(MinMaxAgg::new(direction)),
        DataType::Int64 => AggregateFunction::MinMaxI64(MinMaxAgg::new(direction)),
        DataType::UInt8 => AggregateFunction::MinMaxU8(MinMaxAgg::new(direction)),
        DataType::UInt16 => AggregateFunction::MinMaxU16(MinMaxAgg::new(direction)),
        DataType::UInt32 => AggregateFunction::MinMaxU32(MinMaxAgg::new(direction)),
        DataType::UInt64 => AggregateFunction::MinMaxU64(MinMaxAgg::new(direction)),
        DataType::Boolean | DataType::Int128 | DataType::Date | DataType::String => {
            AggregateFunction::Null(NullAgg::new(dtype))
        }
    }
}

/// The running aggregate of an aggregate over values of a type.
fn function_of(agg: &IRAggExpr, dtype: DataType) -> AggregateFunction
    ensures { result ≡ function_for (kept_kind (aggregation agg.now)) dtype }
{
    match agg {
        IRAggExpr::Sum(_) => sum_of(dtype),
        IRAggExpr::Mean(_) => mean_of(dtype),
        IRAggExpr::Min { .. } => extreme_of(Direction::Min, dtype),
        IRAggExpr::Max { .. } => extreme_of(Direction::Max, dtype),
        IRAggExpr::First(_) => AggregateFunction::First(FirstAgg::new(dtype)),
        IRAggExpr::Last(_) => AggregateFunction::Last(LastAgg::new(dtype)),
        IRAggExpr::Count(..) => AggregateFunction::Count(CountAgg::new()),
        IRAggExpr::Median(_) | IRAggExpr::NUnique(_) => AggregateFunction::Len(CountAgg::new()),
    }
}

impl<'a> Known<'a> {
    /// What the aggregate of a node is fed.
    pub(crate) fn agg_input(&self, node: Node) -> AggInput
        ensures fed { input_of self.now.exprs result ≡ (agg_tree (tree self.now.exprs node)).input }
        ensures there { IsThere self.now.exprs result }
    {
        match self.expr(self.unaliased(node)) {
            Some(AExpr::Agg(agg)) => AggInput::Expr(PipedExpr { node: agg.input() }),
            _ => AggInput::Len(Len),
        }
    }

    /// The running aggregate of a node, before any row.
    pub(crate) fn prototype(&self, node: Node) -> AggregateFunction
        ensures { let a = agg_tree (tree self.now.exprs node) in
            result ≡ function_for a.kind (input_type self.now.fields a.input) }
    {
        let dtype = self.fed(node);
        match self.expr(self.unaliased(node)) {
            Some(AExpr::Agg(agg)) => function_of(agg, dtype),
            _ => AggregateFunction::Len(CountAgg::new()),
        }
    }
}

/// The aggregate that an expression is, under one alias or none. The error is want of memory.
pub fn convert_to_hash_agg(
    alloc: Global,
    node: Node,
    arena: &Arena,
    schema: &Schema,
) -> Result<HashAgg, AllocError>
    requires in_arena { node.0 < length arena.now }
    requires kept { convertible (tree arena.now node) schema.now ≡ true }
    requires typed { is_some (type_of (tree arena.now node) schema.now) ≡ true }
    requires no_dates { adds_dates schema.now (unaliased (tree arena.now node)) ≡ false }
    ensures input { IfOk result (λ h. input_of arena.now h.input
        ≡ (agg_tree (tree arena.now node)).input) }
    ensures there { IfOk result (λ h. IsThere arena.now h.input) }
    ensures dtype { IfOk result (λ h. h.input_dtype
        ≡ input_type schema.now (agg_tree (tree arena.now node)).input) }
    ensures function { IfOk result (λ h. let a = agg_tree (tree arena.now node) in
        h.function ≡ function_for a.kind (input_type schema.now a.input)) }
{
    let known = Known::new(alloc, arena, schema)?;
    Ok(HashAgg {
        input_dtype: known.fed(node),
        input: known.agg_input(node),
        function: known.prototype(node),
    })
}
