//! Minimums and maximums as running aggregates of any kind.

ghost use Rattle.std.specs.Prelude.{refl};
ghost use Rattle.pipe_running.specs.declared.function.AggregateFunction.TheVariants as function;

use crate::kind_state::{AsFunction, KindState};
use crate::plain_state::PlainState;
use pipe_running::MinMaxAgg;

impl AsFunction for MinMaxAgg<u8> {
    ghost as_function = { function.MinMaxU8 };
}

impl KindState for MinMaxAgg<u8> {
    ghost is_kind = { record {
      after_is = λ p v s. refl;
      takes_is = λ s v. refl;
      seen_is = λ s. refl;
      alike_is = λ s t. refl;
      joined_is = λ s t. refl;
      fresh_is = λ s. refl;
      given_is = λ s. refl;
    } };
}

impl PlainState for MinMaxAgg<u8> {
    ghost keeps_none = { λ s. refl };
}

impl AsFunction for MinMaxAgg<u16> {
    ghost as_function = { function.MinMaxU16 };
}

impl KindState for MinMaxAgg<u16> {
    ghost is_kind = { record {
      after_is = λ p v s. refl;
      takes_is = λ s v. refl;
      seen_is = λ s. refl;
      alike_is = λ s t. refl;
      joined_is = λ s t. refl;
      fresh_is = λ s. refl;
      given_is = λ s. refl;
    } };
}

impl PlainState for MinMaxAgg<u16> {
    ghost keeps_none = { λ s. refl };
}

impl AsFunction for MinMaxAgg<u32> {
    ghost as_function = { function.MinMaxU32 };
}

impl KindState for MinMaxAgg<u32> {
    ghost is_kind = { record {
      after_is = λ p v s. refl;
      takes_is = λ s v. refl;
      seen_is = λ s. refl;
      alike_is = λ s t. refl;
      joined_is = λ s t. refl;
      fresh_is = λ s. refl;
      given_is = λ s. refl;
    } };
}

impl PlainState for MinMaxAgg<u32> {
    ghost keeps_none = { λ s. refl };
}

impl AsFunction for MinMaxAgg<u64> {
    ghost as_function = { function.MinMaxU64 };
}

impl KindState for MinMaxAgg<u64> {
    ghost is_kind = { record {
      after_is = λ p v s. refl;
      takes_is = λ s v. refl;
      seen_is = λ s. refl;
      alike_is = λ s t. refl;
      joined_is = λ s t. refl;
      fresh_is = λ s. refl;
      given_is = λ s. refl;
    } };
}

impl PlainState for MinMaxAgg<u64> {
    ghost keeps_none = { λ s. refl };
}

impl AsFunction for MinMaxAgg<i8> {
    ghost as_function = { function.MinMaxI8 };
}

impl KindState for MinMaxAgg<i8> {
    ghost is_kind = { record {
      after_is = λ p v s. refl;
      takes_is = λ s v. refl;
      seen_is = λ s. refl;
      alike_is = λ s t. refl;
      joined_is = λ s t. refl;
      fresh_is = λ s. refl;
      given_is = λ s. refl;
    } };
}

impl PlainState for MinMaxAgg<i8> {
    ghost keeps_none = { λ s. refl };
}

impl AsFunction for MinMaxAgg<i16> {
    ghost as_function = { function.MinMaxI16 };
}

impl KindState for MinMaxAgg<i16> {
    ghost is_kind = { record {
      after_is = λ p v s. refl;
      takes_is = λ s v. refl;
      seen_is = λ s. refl;
      alike_is = λ s t. refl;
      joined_is = λ s t. refl;
      fresh_is = λ s. refl;
      given_is = λ s. refl;
    } };
}

impl PlainState for MinMaxAgg<i16> {
    ghost keeps_none = { λ s. refl };
}

impl AsFunction for MinMaxAgg<i32> {
    ghost as_function = { function.MinMaxI32 };
}

impl KindState for MinMaxAgg<i32> {
    ghost is_kind = { record {
      after_is = λ p v s. refl;
      takes_is = λ s v. refl;
      seen_is = λ s. refl;
      alike_is = λ s t. refl;
      joined_is = λ s t. refl;
      fresh_is = λ s. refl;
      given_is = λ s. refl;
    } };
}

impl PlainState for MinMaxAgg<i32> {
    ghost keeps_none = { λ s. refl };
}

impl AsFunction for MinMaxAgg<i64> {
    ghost as_function = { function.MinMaxI64 };
}

impl KindState for MinMaxAgg<i64> {
    ghost is_kind = { record {
      after_is = λ p v s. refl;
      takes_is = λ s v. refl;
      seen_is = λ s. refl;
      alike_is = λ s t. refl;
      joined_is = λ s t. refl;
      fresh_is = λ s. refl;
      given_is = λ s. refl;
    } };
}

impl PlainState for MinMaxAgg<i64> {
    ghost keeps_none = { λ s. refl };
}
