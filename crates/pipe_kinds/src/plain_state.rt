//! A running aggregate of one kind that keeps no value itself.

ghost use Rattle.std.specs.Prelude.{◌≡◌, false};
ghost use Rattle.pipe_kinds.specs.Keeping.{keeps_value};

use crate::kind_state::KindState;

/// A running aggregate of one kind that keeps no value itself.
pub(crate) trait PlainState: KindState {
    ghost keeps_none: { (s : Self) → keeps_value (Self.AsFunction.as_function s) ≡ false };
}
