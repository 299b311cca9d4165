//! Rows none of whose inputs is a text are given out of bytes that are lent, and take no memory.

ghost use Rattle.std.specs.Prelude.{◌≡◌, ◌++◌, IfSome, IsNone, length};
ghost use Rattle.pipe_columns.specs.Key.{code};
ghost use Rattle.pipe_spill.specs.KeyTypes.{IsTuple};
ghost use Rattle.pipe_waiting.specs.PlainValues.{BeginsSome};
ghost use Rattle.pipe_waiting.specs.Waiting.{HaveNoTexts, HoldRows, IsNext};

use crate::lent_rows::{LentRow, LentRows};
use crate::plain_value::{behind_value, plain_value};
use crate::row_head::take_key;
use pipe_columns::{AnyValue, DataType};

/// Reads the tuple that the bytes begin with into a list, in the place of what it held, and gives
/// the bytes after it.
#[inline(always)]
fn read_plain_inputs<'a>(bytes: &'a [u8], types: &[DataType], values: &mut [AnyValue]) -> &'a [u8]
    requires plain { HaveNoTexts types.now }
    requires begins { BeginsSome types.now bytes.now }
    requires fit { length values.old ≡ length types.now }
    ensures tuple { IsTuple types.now values.new }
    ensures code { code types.now values.new ++ result.now ≡ bytes.now }
    ensures fits { length values.new ≡ length values.old }
{
    let mut rest = bytes;
    for i in 0..types.len() {
        let value = plain_value(rest, types[i]);
        values[i] = value;
        rest = behind_value(rest, types[i]);
    }
    rest
}

impl<'a> LentRows<'a> {
    /// The next row where no input is a text: its place and key, and its inputs in a list, in the
    /// place of what it held. None where all were given. It takes no memory.
    #[inline(always)]
    pub fn next_plain(&mut self, types: &[DataType], values: &mut [AnyValue]) -> Option<LentRow<'a>>
        requires held { HoldRows types.now self.old.count self.old.bytes }
        requires plain { HaveNoTexts types.now }
        requires fit { length values.old ≡ length types.now }
        ensures some { IfSome result (λ row. IsNext types.now (record {
          place = row.place;
          key = row.key.now;
          values = values.new;
        }) self.old self.new) }
        ensures none { IsNone result → self.old.count ≡ 0 }
        ensures same { IsNone result → self.new ≡ self.old }
        ensures fits { length values.new ≡ length values.old }
    {
        if self.count == 0 {
            return None;
        }
        let Some((place, key, inputs)) = take_key(self.bytes) else {
            unreachable!();
        };
        let rest = read_plain_inputs(inputs, types, values);
        self.count -= 1;
        self.bytes = rest;
        Some(LentRow { place, key })
    }
}
