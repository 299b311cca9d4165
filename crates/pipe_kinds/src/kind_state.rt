//! A running aggregate of one kind, as one of any kind.

ghost use Rattle.pipe_running.specs.declared.function.AggregateFunction.{AggregateFunction};
ghost use Rattle.pipe_kinds.specs.KindState.{IsKind};

use pipe_running::AggregateFn;

/// What is a running aggregate of any kind.
pub(crate) trait AsFunction: Drop {
    /// The running aggregate of any kind that it is.
    ghost as_function: { Self → AggregateFunction };
}

/// A running aggregate of one kind. It says of itself what the one of any kind says that it is.
pub(crate) trait KindState: AsFunction + AggregateFn {
    ghost is_kind: { IsKind Self.as_function Self.after_value Self.takes Self.seen Self.alike
        Self.joined Self.fresh Self.given };
}
