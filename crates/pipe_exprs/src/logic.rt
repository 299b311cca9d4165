//! Logic of three truths, and choices.

ghost use Rattle.std.specs.Prelude.{◌≡◌};
ghost use Rattle.pipe_model.specs.Operators.{and_values, chosen as choice, or_values};

use pipe_columns::AnyValue;

/// And of three truths.
pub(crate) fn and(a: &AnyValue, b: &AnyValue) -> AnyValue
    ensures { result ≡ and_values a.now b.now }
{
    match (a, b) {
        (AnyValue::Boolean(false), _) => AnyValue::Boolean(false),
        (_, AnyValue::Boolean(false)) => AnyValue::Boolean(false),
        (AnyValue::Boolean(true), AnyValue::Boolean(true)) => AnyValue::Boolean(true),
        (_, _) => AnyValue::Null,
    }
}

/// Or of three truths.
pub(crate) fn or(a: &AnyValue, b: &AnyValue) -> AnyValue
    ensures { result ≡ or_values a.now b.now }
{
    match (a, b) {
        (AnyValue::Boolean(true), _) => AnyValue::Boolean(true),
        (_, AnyValue::Boolean(true)) => AnyValue::Boolean(true),
        (AnyValue::Boolean(false), AnyValue::Boolean(false)) => AnyValue::Boolean(false),
        (_, _) => AnyValue::Null,
    }
}

/// The first branch where the predicate is true, and else the second.
pub(crate) fn chosen<'a>(
    predicate: &AnyValue,
    truthy: &'a AnyValue,
    falsy: &'a AnyValue,
) -> &'a AnyValue
    ensures { result.now ≡ choice predicate.now truthy.now falsy.now }
{
    match predicate {
        AnyValue::Boolean(true) => truthy,
        AnyValue::Boolean(false) | AnyValue::Null | AnyValue::Int(_) | AnyValue::Text(_) => falsy,
    }
}
