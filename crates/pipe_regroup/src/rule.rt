//! How the results of state rows join, output column by output column.

ghost use Rattle.std.specs.Prelude.{◌≡◌, ◌∷◌, ◌++◌, [], IfOk, OnOk, true};
ghost use Rattle.pipe_regroup.specs.Rules.{all_rules, is_extreme, is_zero, rules_of};

use pipe_aggs::{AggregateFn, AggregateFunction, Finalized};
use pipe_columns::{AnyValue, Place};
use std::alloc::{AllocError, Global};

/// How two results in an output column become one: by a sum that wraps in a type, by a sum of which
/// either may be null, or by a choice.
#[derive(Clone, Copy, Debug, PartialEq, Eq)]
pub enum Rule {
    SumU32,
    SumU64,
    SumI32,
    SumI64,
    MeanSum,
    Null,
    Least,
    Greatest,
    First,
    Last,
}

/// Whether an aggregate gave the number 0.
fn is_zero(given: &Finalized) -> bool
    ensures { result ≡ is_zero given.now }
{
    matches!(given, Finalized::One(AnyValue::Int(0)))
}

/// The rule of a running least or greatest value, as it chooses between 0 and 1.
fn extreme_rule(function: &AggregateFunction) -> Rule
    requires { is_extreme function.now ≡ true }
    ensures { result ∷ [] ≡ rules_of function.now }
{
    let place = Place { chunk: 0, row: 0 };
    let mut running = function.split();
    running.pre_agg(place, AnyValue::Int(0));
    running.pre_agg(place, AnyValue::Int(1));
    let given = running.finalize();
    if is_zero(&given) {
        Rule::Least
    } else {
        Rule::Greatest
    }
}

/// Adds the rules of the output columns of a running aggregate.
fn push_rules(rules: &mut Vec<Rule>, function: &AggregateFunction) -> Result<(), AllocError>
    ensures { OnOk result (rules.new.items ≡ rules.old.items ++ rules_of function.now) }
{
    let rule = match function {
        AggregateFunction::First(_) => Rule::First,
        AggregateFunction::Last(_) => Rule::Last,
        AggregateFunction::Count(_) | AggregateFunction::Len(_) | AggregateFunction::SumU32(_) =>
            Rule::SumU32,
        AggregateFunction::SumU64(_) => Rule::SumU64,
        AggregateFunction::SumI32(_) => Rule::SumI32,
        AggregateFunction::SumI64(_) => Rule::SumI64,
        AggregateFunction::Null(_) => Rule::Null,
        AggregateFunction::Mean(_) => {
            rules.push(Rule::MeanSum)?;
            Rule::SumU32
        }
        _ => extreme_rule(function),
    };
    rules.push(rule)?;
    Ok(())
}

/// The rules of the output columns of running aggregates.
pub(crate) fn rules_of(
    alloc: Global,
    functions: &[AggregateFunction],
) -> Result<Vec<Rule>, AllocError>
    ensures { IfOk result (λ rules. rules.items ≡ all_rules functions.now) }
{
    let mut rules = Vec::with_capacity(alloc, functions.len())?;
    for function in functions {
        push_rules(&mut rules, function)?;
    }
    Ok(rules)
}
