//! Counts, sums and means as running aggregates of any kind.

ghost use Rattle.std.specs.Prelude.{refl};
ghost use Rattle.pipe_running.specs.declared.function.AggregateFunction.TheVariants as function;

use crate::kind_state::{AsFunction, KindState};
use crate::plain_state::PlainState;
use pipe_running::{CountAgg, MeanAgg, SumAgg};

impl AsFunction for CountAgg<false> {
    ghost as_function = { function.Count };
}

impl KindState for CountAgg<false> {
    ghost is_kind = { record {
      after_is = λ p v s. refl;
      takes_is = λ s v. refl;
      seen_is = λ s. refl;
      alike_is = λ s t. refl;
      joined_is = λ s t. refl;
      fresh_is = λ s. refl;
      given_is = λ s. refl;
    } };
}

impl PlainState for CountAgg<false> {
    ghost keeps_none = { λ s. refl };
}

impl AsFunction for CountAgg<true> {
    ghost as_function = { function.Len };
}

impl KindState for CountAgg<true> {
    ghost is_kind = { record {
      after_is = λ p v s. refl;
      takes_is = λ s v. refl;
      seen_is = λ s. refl;
      alike_is = λ s t. refl;
      joined_is = λ s t. refl;
      fresh_is = λ s. refl;
      given_is = λ s. refl;
    } };
}

impl PlainState for CountAgg<true> {
    ghost keeps_none = { λ s. refl };
}

impl AsFunction for SumAgg<u32> {
    ghost as_function = { function.SumU32 };
}

impl KindState for SumAgg<u32> {
    ghost is_kind = { record {
      after_is = λ p v s. refl;
      takes_is = λ s v. refl;
      seen_is = λ s. refl;
      alike_is = λ s t. refl;
      joined_is = λ s t. refl;
      fresh_is = λ s. refl;
      given_is = λ s. refl;
    } };
}

impl PlainState for SumAgg<u32> {
    ghost keeps_none = { λ s. refl };
}

impl AsFunction for SumAgg<u64> {
    ghost as_function = { function.SumU64 };
}

impl KindState for SumAgg<u64> {
    ghost is_kind = { record {
      after_is = λ p v s. refl;
      takes_is = λ s v. refl;
      seen_is = λ s. refl;
      alike_is = λ s t. refl;
      joined_is = λ s t. refl;
      fresh_is = λ s. refl;
      given_is = λ s. refl;
    } };
}

impl PlainState for SumAgg<u64> {
    ghost keeps_none = { λ s. refl };
}

impl AsFunction for SumAgg<i32> {
    ghost as_function = { function.SumI32 };
}

impl KindState for SumAgg<i32> {
    ghost is_kind = { record {
      after_is = λ p v s. refl;
      takes_is = λ s v. refl;
      seen_is = λ s. refl;
      alike_is = λ s t. refl;
      joined_is = λ s t. refl;
      fresh_is = λ s. refl;
      given_is = λ s. refl;
    } };
}

impl PlainState for SumAgg<i32> {
    ghost keeps_none = { λ s. refl };
}

impl AsFunction for SumAgg<i64> {
    ghost as_function = { function.SumI64 };
}

impl KindState for SumAgg<i64> {
    ghost is_kind = { record {
      after_is = λ p v s. refl;
      takes_is = λ s v. refl;
      seen_is = λ s. refl;
      alike_is = λ s t. refl;
      joined_is = λ s t. refl;
      fresh_is = λ s. refl;
      given_is = λ s. refl;
    } };
}

impl PlainState for SumAgg<i64> {
    ghost keeps_none = { λ s. refl };
}

impl AsFunction for MeanAgg<i128> {
    ghost as_function = { function.Mean };
}

impl KindState for MeanAgg<i128> {
    ghost is_kind = { record {
      after_is = λ p v s. refl;
      takes_is = λ s v. refl;
      seen_is = λ s. refl;
      alike_is = λ s t. refl;
      joined_is = λ s t. refl;
      fresh_is = λ s. refl;
      given_is = λ s. refl;
    } };
}

impl PlainState for MeanAgg<i128> {
    ghost keeps_none = { λ s. refl };
}
