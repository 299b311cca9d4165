//! What keeps nothing, and what is of any kind already.

ghost use Rattle.std.specs.Prelude.{refl};
ghost use Rattle.pipe_running.specs.declared.function.AggregateFunction.TheVariants as function;

use crate::kind_state::{AsFunction, KindState};
use crate::plain_state::PlainState;
use pipe_running::{AggregateFunction, NullAgg};

impl AsFunction for NullAgg {
    ghost as_function = { function.Null };
}

impl KindState for NullAgg {
    ghost is_kind = { record {
      after_is = λ p v s. refl;
      takes_is = λ s v. refl;
      seen_is = λ s. refl;
      alike_is = λ s t. refl;
      joined_is = λ s t. refl;
      fresh_is = λ s. refl;
      given_is = λ s. refl;
    } };
}

impl PlainState for NullAgg {
    ghost keeps_none = { λ s. refl };
}

impl AsFunction for AggregateFunction {
    ghost as_function = { λ s. s };
}

impl KindState for AggregateFunction {
    ghost is_kind = { record {
      after_is = λ p v s. refl;
      takes_is = λ s v. refl;
      seen_is = λ s. refl;
      alike_is = λ s t. refl;
      joined_is = λ s t. refl;
      fresh_is = λ s. refl;
      given_is = λ s. refl;
    } };
}
