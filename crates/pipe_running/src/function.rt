//! A running aggregate of any kind.

ghost use Rattle.std.specs.Prelude.{◌≡◌};
ghost use Rattle.pipe_running.specs.States.{after_value as function_after, alike as function_alike, first_type, fresh as fresh_function, given as function_given, is_physical as function_is_physical, joined as functions_joined, seen as function_seen, takes as function_takes};
ghost use Rattle.pipe_running.specs.StateLaws.{function_by_one, function_takes_alike};

use crate::count::CountAgg;
use crate::first::FirstAgg;
use crate::interface::{AggregateFn, Finalized};
use crate::last::LastAgg;
use crate::mean::MeanAgg;
use crate::min_max::MinMaxAgg;
use crate::null::NullAgg;
use crate::sum::SumAgg;
use pipe_columns::{AnyValue, DataType, Place};

/// A running aggregate of any kind.
#[derive(Drop)]
pub enum AggregateFunction {
    First(FirstAgg),
    Last(LastAgg),
    Count(CountAgg<false>),
    Len(CountAgg<true>),
    SumU32(SumAgg<u32>),
    SumU64(SumAgg<u64>),
    SumI32(SumAgg<i32>),
    SumI64(SumAgg<i64>),
    Mean(MeanAgg<i128>),
    Null(NullAgg),
    MinMaxU8(MinMaxAgg<u8>),
    MinMaxU16(MinMaxAgg<u16>),
    MinMaxU32(MinMaxAgg<u32>),
    MinMaxU64(MinMaxAgg<u64>),
    MinMaxI8(MinMaxAgg<i8>),
    MinMaxI16(MinMaxAgg<i16>),
    MinMaxI32(MinMaxAgg<i32>),
    MinMaxI64(MinMaxAgg<i64>),
}

impl AggregateFunction {
    /// An aggregate of the same kind that has seen no value.
    pub fn split(&self) -> AggregateFunction
        ensures { result ≡ fresh_function self.now }
    {
        match self {
            AggregateFunction::First(state) => AggregateFunction::First(state.split()),
            AggregateFunction::Last(state) => AggregateFunction::Last(state.split()),
            AggregateFunction::Count(_) => AggregateFunction::Count(CountAgg::new()),
            AggregateFunction::Len(_) => AggregateFunction::Len(CountAgg::new()),
            AggregateFunction::SumU32(_) => AggregateFunction::SumU32(SumAgg::new()),
            AggregateFunction::SumU64(_) => AggregateFunction::SumU64(SumAgg::new()),
            AggregateFunction::SumI32(_) => AggregateFunction::SumI32(SumAgg::new()),
            AggregateFunction::SumI64(_) => AggregateFunction::SumI64(SumAgg::new()),
            AggregateFunction::Mean(_) => AggregateFunction::Mean(MeanAgg::new()),
            AggregateFunction::Null(state) => AggregateFunction::Null(NullAgg::new(state.0)),
            AggregateFunction::MinMaxU8(state) => AggregateFunction::MinMaxU8(state.split()),
            AggregateFunction::MinMaxU16(state) => AggregateFunction::MinMaxU16(state.split()),
            AggregateFunction::MinMaxU32(state) => AggregateFunction::MinMaxU32(state.split()),
            AggregateFunction::MinMaxU64(state) => AggregateFunction::MinMaxU64(state.split()),
            AggregateFunction::MinMaxI8(state) => AggregateFunction::MinMaxI8(state.split()),
            AggregateFunction::MinMaxI16(state) => AggregateFunction::MinMaxI16(state.split()),
            AggregateFunction::MinMaxI32(state) => AggregateFunction::MinMaxI32(state.split()),
            AggregateFunction::MinMaxI64(state) => AggregateFunction::MinMaxI64(state.split()),
        }
    }
}

impl AggregateFn for AggregateFunction {
    ghost seen = { function_seen };

    ghost takes = { function_takes };

    ghost alike = { function_alike };

    ghost after_value = { function_after };

    ghost joined = { functions_joined };

    ghost given = { function_given };

    ghost fresh = { fresh_function };

    ghost is_physical = { function_is_physical };

    ghost output_type = { first_type };

    ghost seen_by_one = { function_by_one };

    ghost takes_alike = { function_takes_alike };

    fn has_physical_agg(&self) -> bool {
        match self {
            AggregateFunction::First(state) => state.has_physical_agg(),
            AggregateFunction::Last(state) => state.has_physical_agg(),
            AggregateFunction::Count(state) => state.has_physical_agg(),
            AggregateFunction::Len(state) => state.has_physical_agg(),
            AggregateFunction::SumU32(state) => state.has_physical_agg(),
            AggregateFunction::SumU64(state) => state.has_physical_agg(),
            AggregateFunction::SumI32(state) => state.has_physical_agg(),
            AggregateFunction::SumI64(state) => state.has_physical_agg(),
            AggregateFunction::Mean(state) => state.has_physical_agg(),
            AggregateFunction::Null(state) => state.has_physical_agg(),
            AggregateFunction::MinMaxU8(state) => state.has_physical_agg(),
            AggregateFunction::MinMaxU16(state) => state.has_physical_agg(),
            AggregateFunction::MinMaxU32(state) => state.has_physical_agg(),
            AggregateFunction::MinMaxU64(state) => state.has_physical_agg(),
            AggregateFunction::MinMaxI8(state) => state.has_physical_agg(),
            AggregateFunction::MinMaxI16(state) => state.has_physical_agg(),
            AggregateFunction::MinMaxI32(state) => state.has_physical_agg(),
            AggregateFunction::MinMaxI64(state) => state.has_physical_agg(),
        }
    }

    fn pre_agg(&mut self, place: Place, value: AnyValue) {
        match self {
            AggregateFunction::First(state) => state.pre_agg(place, value),
            AggregateFunction::Last(state) => state.pre_agg(place, value),
            AggregateFunction::Count(state) => state.pre_agg(place, value),
            AggregateFunction::Len(state) => state.pre_agg(place, value),
            AggregateFunction::SumU32(state) => state.pre_agg(place, value),
            AggregateFunction::SumU64(state) => state.pre_agg(place, value),
            AggregateFunction::SumI32(state) => state.pre_agg(place, value),
            AggregateFunction::SumI64(state) => state.pre_agg(place, value),
            AggregateFunction::Mean(state) => state.pre_agg(place, value),
            AggregateFunction::Null(state) => state.pre_agg(place, value),
            AggregateFunction::MinMaxU8(state) => state.pre_agg(place, value),
            AggregateFunction::MinMaxU16(state) => state.pre_agg(place, value),
            AggregateFunction::MinMaxU32(state) => state.pre_agg(place, value),
            AggregateFunction::MinMaxU64(state) => state.pre_agg(place, value),
            AggregateFunction::MinMaxI8(state) => state.pre_agg(place, value),
            AggregateFunction::MinMaxI16(state) => state.pre_agg(place, value),
            AggregateFunction::MinMaxI32(state) => state.pre_agg(place, value),
            AggregateFunction::MinMaxI64(state) => state.pre_agg(place, value),
        }
    }

    fn pre_agg_ordered(&mut self, chunk: u32, first_row: u32, values: &mut [AnyValue]) {
        match self {
            AggregateFunction::First(state) => state.pre_agg_ordered(chunk, first_row, values),
            AggregateFunction::Last(state) => state.pre_agg_ordered(chunk, first_row, values),
            AggregateFunction::Count(state) => state.pre_agg_ordered(chunk, first_row, values),
            AggregateFunction::Len(state) => state.pre_agg_ordered(chunk, first_row, values),
            AggregateFunction::SumU32(state) => state.pre_agg_ordered(chunk, first_row, values),
            AggregateFunction::SumU64(state) => state.pre_agg_ordered(chunk, first_row, values),
            AggregateFunction::SumI32(state) => state.pre_agg_ordered(chunk, first_row, values),
            AggregateFunction::SumI64(state) => state.pre_agg_ordered(chunk, first_row, values),
            AggregateFunction::Mean(state) => state.pre_agg_ordered(chunk, first_row, values),
            AggregateFunction::Null(state) => state.pre_agg_ordered(chunk, first_row, values),
            AggregateFunction::MinMaxU8(state) => state.pre_agg_ordered(chunk, first_row, values),
            AggregateFunction::MinMaxU16(state) => state.pre_agg_ordered(chunk, first_row, values),
            AggregateFunction::MinMaxU32(state) => state.pre_agg_ordered(chunk, first_row, values),
            AggregateFunction::MinMaxU64(state) => state.pre_agg_ordered(chunk, first_row, values),
            AggregateFunction::MinMaxI8(state) => state.pre_agg_ordered(chunk, first_row, values),
            AggregateFunction::MinMaxI16(state) => state.pre_agg_ordered(chunk, first_row, values),
            AggregateFunction::MinMaxI32(state) => state.pre_agg_ordered(chunk, first_row, values),
            AggregateFunction::MinMaxI64(state) => state.pre_agg_ordered(chunk, first_row, values),
        }
    }

    fn dtype(&self) -> DataType {
        match self {
            AggregateFunction::First(state) => state.dtype(),
            AggregateFunction::Last(state) => state.dtype(),
            AggregateFunction::Count(state) => state.dtype(),
            AggregateFunction::Len(state) => state.dtype(),
            AggregateFunction::SumU32(state) => state.dtype(),
            AggregateFunction::SumU64(state) => state.dtype(),
            AggregateFunction::SumI32(state) => state.dtype(),
            AggregateFunction::SumI64(state) => state.dtype(),
            AggregateFunction::Mean(state) => state.dtype(),
            AggregateFunction::Null(state) => state.dtype(),
            AggregateFunction::MinMaxU8(state) => state.dtype(),
            AggregateFunction::MinMaxU16(state) => state.dtype(),
            AggregateFunction::MinMaxU32(state) => state.dtype(),
            AggregateFunction::MinMaxU64(state) => state.dtype(),
            AggregateFunction::MinMaxI8(state) => state.dtype(),
            AggregateFunction::MinMaxI16(state) => state.dtype(),
            AggregateFunction::MinMaxI32(state) => state.dtype(),
            AggregateFunction::MinMaxI64(state) => state.dtype(),
        }
    }

    fn combine(&mut self, other: AggregateFunction) {
        match (self, other) {
            (Self::First(state), Self::First(other)) => state.combine(other),
            (Self::Last(state), Self::Last(other)) => state.combine(other),
            (Self::Count(state), Self::Count(other)) => state.combine(other),
            (Self::Len(state), Self::Len(other)) => state.combine(other),
            (Self::SumU32(state), Self::SumU32(other)) => state.combine(other),
            (Self::SumU64(state), Self::SumU64(other)) => state.combine(other),
            (Self::SumI32(state), Self::SumI32(other)) => state.combine(other),
            (Self::SumI64(state), Self::SumI64(other)) => state.combine(other),
            (Self::Mean(state), Self::Mean(other)) => state.combine(other),
            (Self::Null(state), Self::Null(other)) => state.combine(other),
            (Self::MinMaxU8(state), Self::MinMaxU8(other)) => state.combine(other),
            (Self::MinMaxU16(state), Self::MinMaxU16(other)) => state.combine(other),
            (Self::MinMaxU32(state), Self::MinMaxU32(other)) => state.combine(other),
            (Self::MinMaxU64(state), Self::MinMaxU64(other)) => state.combine(other),
            (Self::MinMaxI8(state), Self::MinMaxI8(other)) => state.combine(other),
            (Self::MinMaxI16(state), Self::MinMaxI16(other)) => state.combine(other),
            (Self::MinMaxI32(state), Self::MinMaxI32(other)) => state.combine(other),
            (Self::MinMaxI64(state), Self::MinMaxI64(other)) => state.combine(other),
            _ => unreachable!(),
        }
    }

    fn finalize(&mut self) -> Finalized {
        match self {
            AggregateFunction::First(state) => state.finalize(),
            AggregateFunction::Last(state) => state.finalize(),
            AggregateFunction::Count(state) => state.finalize(),
            AggregateFunction::Len(state) => state.finalize(),
            AggregateFunction::SumU32(state) => state.finalize(),
            AggregateFunction::SumU64(state) => state.finalize(),
            AggregateFunction::SumI32(state) => state.finalize(),
            AggregateFunction::SumI64(state) => state.finalize(),
            AggregateFunction::Mean(state) => state.finalize(),
            AggregateFunction::Null(state) => state.finalize(),
            AggregateFunction::MinMaxU8(state) => state.finalize(),
            AggregateFunction::MinMaxU16(state) => state.finalize(),
            AggregateFunction::MinMaxU32(state) => state.finalize(),
            AggregateFunction::MinMaxU64(state) => state.finalize(),
            AggregateFunction::MinMaxI8(state) => state.finalize(),
            AggregateFunction::MinMaxI16(state) => state.finalize(),
            AggregateFunction::MinMaxI32(state) => state.finalize(),
            AggregateFunction::MinMaxI64(state) => state.finalize(),
        }
    }
}
