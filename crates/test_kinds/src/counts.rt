//! Groups that count their rows.

ghost use Rattle.std.specs.Prelude.{◌≡◌, ◌∷◌, [], IfOk};
ghost use Rattle.pipe_running.specs.declared.function.AggregateFunction.TheVariants as function;

use pipe_columns::{AnyValue, Place};
use pipe_kinds::States;
use pipe_running::{AggregateFunction, CountAgg, Finalized};
use std::alloc::{AllocError, Global};
use std::test::Fail;

/// Two groups without rows.
fn two_groups(alloc: Global) -> Result<States, AllocError>
    ensures fresh { IfOk result (λ s. s.fresh ≡ function.Len (record { count = 0 }) ∷ []) }
    ensures groups { IfOk result (λ s. s.groups ≡ (function.Len (record { count = 0 }) ∷ [])
        ∷ (function.Len (record { count = 0 }) ∷ []) ∷ []) }
{
    let prototypes = [AggregateFunction::Len(CountAgg::new())];
    let mut states = States::new(alloc, &prototypes)?;
    states.reserve(2)?;
    states.push_fresh();
    states.push_fresh();
    Ok(states)
}

/// Whether an aggregate gave a number.
fn is_number(given: &Finalized, number: i128) -> bool {
    match given {
        Finalized::One(AnyValue::Int(found)) => *found == number,
        _ => false,
    }
}

/// Whether groups keep no value themselves.
fn keep_none(states: &States) -> bool
    requires fresh { states.now.fresh ≡ function.Len (record { count = 0 }) ∷ [] }
    requires groups { states.now.groups ≡ (function.Len (record { count = 0 }) ∷ [])
        ∷ (function.Len (record { count = 0 }) ∷ []) ∷ [] }
{
    let place = Place { chunk: 0, row: 0 };
    let kept = states.keeps_text(1, 0, place, &AnyValue::Null);
    !kept && !states.keeps_values_at(0) && !states.keeps_values()
}

/// Feeds the first group two rows, and says how many states there are.
fn feed_two(states: &mut States) -> usize
    requires fresh { states.old.fresh ≡ function.Len (record { count = 0 }) ∷ [] }
    requires groups { states.old.groups ≡ (function.Len (record { count = 0 }) ∷ [])
        ∷ (function.Len (record { count = 0 }) ∷ []) ∷ [] }
    ensures fresh { states.new.fresh ≡ function.Len (record { count = 0 }) ∷ [] }
    ensures groups { states.new.groups ≡ (function.Len (record { count = 2 }) ∷ [])
        ∷ (function.Len (record { count = 0 }) ∷ []) ∷ [] }
{
    let value = AnyValue::Int(3);
    states.feed(0, 0, Place { chunk: 0, row: 0 }, AnyValue::Null);
    states.feed_lent(0, 0, Place { chunk: 0, row: 1 }, &value);
    states.len() * states.width()
}

/// Feeds the second group a run of two rows.
fn feed_pair(states: &mut States)
    requires fresh { states.old.fresh ≡ function.Len (record { count = 0 }) ∷ [] }
    requires groups { states.old.groups ≡ (function.Len (record { count = 0 }) ∷ [])
        ∷ (function.Len (record { count = 0 }) ∷ []) ∷ [] }
    ensures fresh { states.new.fresh ≡ function.Len (record { count = 0 }) ∷ [] }
    ensures groups { states.new.groups ≡ (function.Len (record { count = 0 }) ∷ [])
        ∷ (function.Len (record { count = 2 }) ∷ []) ∷ [] }
{
    let values = [AnyValue::Null, AnyValue::Int(1)];
    states.feed_run(1, 0, 0, 2, &values);
}

/// Whether a group has the rows of both where another is joined, which then has none.
fn joins(states: &mut States, others: &mut States) -> bool
    requires fresh { states.old.fresh ≡ function.Len (record { count = 0 }) ∷ [] }
    requires groups { states.old.groups ≡ (function.Len (record { count = 2 }) ∷ [])
        ∷ (function.Len (record { count = 0 }) ∷ []) ∷ [] }
    requires others_fresh { others.old.fresh ≡ function.Len (record { count = 0 }) ∷ [] }
    requires others { others.old.groups ≡ (function.Len (record { count = 0 }) ∷ [])
        ∷ (function.Len (record { count = 2 }) ∷ []) ∷ [] }
{
    states.join(0, others, 1);
    let joined = states.finalize(0, 0);
    let left = others.finalize(1, 0);
    states.clear();
    others.release();
    is_number(&joined, 4) && is_number(&left, 0) && states.len() == 0 && others.len() == 0
}

/// Whether groups count what they are fed, and what is joined to them.
fn counts(alloc: Global) -> Result<bool, AllocError> {
    let mut states = two_groups(alloc)?;
    let mut others = two_groups(alloc)?;
    let plain = keep_none(&states) && states.look(0) == others.look(0);
    let four = feed_two(&mut states);
    feed_pair(&mut others);
    Ok(plain && four == 2 && joins(&mut states, &mut others))
}

#[test]
fn groups_count(rt: HostRuntime) -> Result<(), Fail> {
    assert!(rt; counts(rt.alloc())?);
    Ok(())
}
