//! Whether a running aggregate is a minimum or a maximum.

ghost use Rattle.std.specs.Prelude.{◌≡◌, IfSome};
ghost use Rattle.pipe_kinds.specs.Directions.{direction_by, direction_in, given_of_two};

use pipe_columns::{AnyValue, Place};
use pipe_running::{AggregateFn, AggregateFunction, Direction, Finalized};

/// What a running aggregate gives of 0 and 1.
fn given_of_two(prototype: &AggregateFunction) -> Finalized
    ensures { result ≡ given_of_two prototype.now }
{
    let mut probe = prototype.split();
    probe.pre_agg(Place { chunk: 0, row: 0 }, AnyValue::Int(0));
    probe.pre_agg(Place { chunk: 0, row: 1 }, AnyValue::Int(1));
    probe.finalize()
}

/// The direction that gives this of 0 and 1.
fn direction_by(given: Finalized) -> Direction
    ensures { result ≡ direction_by given }
{
    match given {
        Finalized::One(AnyValue::Int(0)) => Direction::Min,
        _ => Direction::Max,
    }
}

/// The direction of a minimum or a maximum: of 0 and 1 a minimum gives 0.
pub(crate) fn direction_of(prototype: &AggregateFunction) -> Direction
    ensures { IfSome (direction_in prototype.now) (λ d. result ≡ d) }
{
    direction_by(given_of_two(prototype))
}
