//! Aggregates and queries over expressions: which a table of groups can keep, and what is wrong.
#![tactic(auto)]

mod aggs;
mod check;
mod checked_query;
mod convert;
mod doubles;
mod hash_agg;
mod known;
mod output;
mod query;
mod query_fault;
mod sound;
mod worked;

pub use check::CheckError;
pub use checked_query::CheckedQuery;
pub use convert::can_convert_to_hash_agg;
pub use hash_agg::{AggInput, HashAgg, convert_to_hash_agg};
pub use pipe_exprs::{
    AExpr, AddError, Arena, ColumnValues, IRAggExpr, Len, Node, Operator, PipedExpr, TypeFault,
    to_field,
};
pub use pipe_running::{
    AggregateFn, AggregateFunction, CountAgg, Direction, Finalized, FirstAgg, LastAgg, MeanAgg,
    MinMaxAgg, NullAgg, NumericNative, SumAgg,
};
pub use query::Query;
pub use query_fault::QueryFault;
