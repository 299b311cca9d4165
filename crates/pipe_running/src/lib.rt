//! Running aggregates: what a group keeps of the values that it has seen.
#![tactic(auto)]

mod count;
mod first;
mod function;
mod function_lent;
mod group_laws;
mod interface;
mod last;
mod laws;
mod lent;
mod mean;
mod min_max;
mod null;
mod number_laws;
mod sum;

pub use count::CountAgg;
pub use first::FirstAgg;
pub use function::AggregateFunction;
pub use interface::{AggregateFn, Finalized};
pub use last::LastAgg;
pub use mean::MeanAgg;
pub use min_max::{Direction, MinMaxAgg};
pub use null::NullAgg;
pub use pipe_native::NumericNative;
pub use sum::SumAgg;
