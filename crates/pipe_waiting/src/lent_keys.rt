//! The places and the keys of rows are given out of bytes that are lent, and their inputs are passed
//! over.

ghost use Rattle.std.specs.Prelude.{◌≡◌, IfSome, IsNone};
ghost use Rattle.pipe_waiting.specs.PlainValues.{BeginsSome, BeginsTuple};
ghost use Rattle.pipe_waiting.specs.Waiting.{HaveNoTexts, HoldRows, IsNextKey};

use crate::lent_rows::{LentRow, LentRows};
use crate::plain_value::behind_value;
use crate::row_head::take_key;
use pipe_columns::DataType;

/// The bytes after the tuple that the bytes begin with.
#[inline(always)]
fn skip_inputs<'a>(bytes: &'a [u8], types: &[DataType]) -> &'a [u8]
    requires plain { HaveNoTexts types.now }
    requires begins { BeginsSome types.now bytes.now }
    ensures { BeginsTuple types.now bytes.now result.now }
{
    let mut rest = bytes;
    for i in 0..types.len() {
        rest = behind_value(rest, types[i]);
    }
    rest
}

impl<'a> LentRows<'a> {
    /// The place and the key of the next row where no input is a text; of its inputs only the marks
    /// are read. None where all were given. It takes no memory.
    #[inline(always)]
    pub fn next_key(&mut self, types: &[DataType]) -> Option<LentRow<'a>>
        requires held { HoldRows types.now self.old.count self.old.bytes }
        requires plain { HaveNoTexts types.now }
        ensures some { IfSome result
            (λ row. IsNextKey types.now row.place row.key.now self.old self.new) }
        ensures none { IsNone result → self.old.count ≡ 0 }
        ensures same { IsNone result → self.new ≡ self.old }
    {
        if self.count == 0 {
            return None;
        }
        let Some((place, key, inputs)) = take_key(self.bytes) else {
            unreachable!();
        };
        let rest = skip_inputs(inputs, types);
        self.count -= 1;
        self.bytes = rest;
        Some(LentRow { place, key })
    }
}
