//! A list of values.

ghost use Rattle.std.specs.Prelude.{◌≡◌, ◌+◌, ◌∷◌, [], drop};
ghost use Rattle.pipe_columns.specs.Frame.{value_at};

use pipe_columns::AnyValue;
use std::marker::Model;
use std::mem;

/// No more values than this stand in the list itself and take no memory of their own.
const MOST_FEW: usize = 2;

/// Where values stand.
#[derive(Debug, Drop)]
enum Kept {
    Few {
        len: usize,
        values: [AnyValue; MOST_FEW],
    },
    Many(Vec<AnyValue>),
}

/// Values in order, as the tuple of a key or the inputs of a row. Contracts see it as the list of
/// them.
#[derive(Debug, Drop)]
pub struct Values {
    kept: Kept,
}

impl Model for Values {
    ghost use Rattle.std.specs.Prelude.{List};
    ghost use Rattle.pipe_columns.specs.declared.any_value.AnyValue.{AnyValue};
    ghost use Rattle.pipe_spill.specs.Values.{AreFew, values_of};

    ghost Value = { List AnyValue };

    ghost view = { λ a. values_of a.kept };

    ghost invariant = { λ a. AreFew a.kept };
}

impl Values {
    /// The list of these values. It takes no memory.
    pub fn new(items: Vec<AnyValue>) -> Values
        ensures { result ≡ items.items }
    {
        Values {
            kept: Kept::Many(items),
        }
    }

    /// The list of one value. It takes no memory.
    #[inline(always)]
    pub fn one(value: AnyValue) -> Values
        ensures { result ≡ value ∷ [] }
    {
        Values {
            kept: Kept::Few {
                len: 1,
                values: [value, AnyValue::Null],
            },
        }
    }

    /// The list of two values. It takes no memory.
    #[inline(always)]
    pub fn pair(first: AnyValue, second: AnyValue) -> Values
        ensures { result ≡ first ∷ second ∷ [] }
    {
        Values {
            kept: Kept::Few {
                len: 2,
                values: [first, second],
            },
        }
    }

    /// The values, lent. It takes no memory.
    #[inline(always)]
    pub fn as_slice(&self) -> &[AnyValue]
        ensures { result.now ≡ self.now }
    {
        match &self.kept {
            Kept::Few { len, values } => &values[..*len],
            Kept::Many(items) => items,
        }
    }

    /// Takes the value at a position out, null past the last. It takes no memory.
    pub fn take_out(&mut self, j: usize) -> AnyValue
        ensures value { result ≡ value_at self.old j }
        ensures rest { drop (j + 1) self.new ≡ drop (j + 1) self.old }
    {
        if j >= self.as_slice().len() {
            return AnyValue::Null;
        }
        match &mut self.kept {
            Kept::Few { len: _, values } => mem::replace(&mut values[j], AnyValue::Null),
            Kept::Many(items) => mem::replace(&mut items[j], AnyValue::Null),
        }
    }
}
