//! A column that is filled, in the memory of one that was given before.

ghost use Rattle.std.specs.Prelude.{◌≡◌, ◌++◌, ◌∷◌, [], IfOk, IsUtf8, OnOk, map, replicate};
ghost use Rattle.pipe_columns.specs.declared.any_value.AnyValue.TheVariants as av;

use pipe_columns::{AnyValue, Column, DataChunk, Text};
use std::alloc::{AllocError, Global};
use std::marker::Model;
use std::mem;

/// A text takes room for so many bytes at least, so that most of those that come after it find enough.
const LEAST_TEXT: usize = 24;

/// The values so far. Behind them may stand values of a column that was given before, whose memory
/// further values take. Contracts see the values so far.
#[derive(Drop)]
pub(crate) struct ColumnFill {
    values: Vec<AnyValue>,
    filled: usize,
}

impl Model for ColumnFill {
    ghost use Rattle.std.specs.Prelude.{◌≤◌, List, length, take};
    ghost use Rattle.pipe_columns.specs.declared.any_value.AnyValue.{AnyValue};

    ghost Value = { List AnyValue };

    ghost view = { λ f. take f.filled f.values.items };

    ghost invariant = { λ f. f.filled ≤ length f.values.items };
}

impl ColumnFill {
    /// No value yet, in the memory of these.
    pub(crate) fn new(values: Vec<AnyValue>) -> ColumnFill
        ensures { result ≡ [] }
    {
        ColumnFill { values, filled: 0 }
    }

    /// Puts a value behind the others.
    #[inline(always)]
    pub(crate) fn push(&mut self, value: AnyValue) -> Result<(), AllocError>
        ensures { OnOk result (self.new ≡ self.old ++ value ∷ []) }
    {
        if self.filled < self.values.len() {
            self.values[self.filled] = value;
        } else if self.values.push(value).is_err() {
            return Err(AllocError);
        }
        self.filled += 1;
        Ok(())
    }

    /// The memory of the text that stands where the next value goes.
    #[inline(always)]
    fn spare(&mut self) -> Vec<u8>
        ensures room { result.items ≡ [] }
        ensures same { self.new ≡ self.old }
    {
        let alloc = *self.values.allocator();
        if self.filled < self.values.len() {
            let old = mem::replace(&mut self.values[self.filled], AnyValue::Null);
            if let AnyValue::Text(text) = old {
                let mut bytes = text.into_bytes();
                bytes.clear();
                return bytes;
            }
        }
        Vec::new(alloc)
    }

    /// Puts a copy of a text behind the others.
    #[inline(always)]
    pub(crate) fn push_text(&mut self, text: &[u8]) -> Result<(), AllocError>
        requires { IsUtf8 text.now }
        ensures { OnOk result (self.new ≡ self.old ++ av.Text text.now ∷ []) }
    {
        let mut bytes = self.spare();
        if bytes.capacity() < text.len() {
            bytes.reserve(text.len().max(LEAST_TEXT))?;
        }
        bytes.extend_from_slice(text)?;
        self.push(AnyValue::Text(Text::from_utf8(bytes)))
    }

    /// The values.
    pub(crate) fn into_values(self) -> Vec<AnyValue>
        ensures { result.items ≡ self }
    {
        let mut values = self.values;
        values.truncate(self.filled);
        values
    }
}

/// The columns of a chunk from one on.
fn columns_of(alloc: Global, chunk: Option<DataChunk>, first: usize) -> Vec<Column> {
    let Some(chunk) = chunk else {
        return Vec::new(alloc);
    };
    let mut columns = chunk.frame.into_columns();
    columns.drain(..first.min(columns.len()));
    columns
}

/// So many columns without values, in the memory of those of a chunk from one on, and each other with
/// room for so many.
pub(crate) fn column_fills(
    alloc: Global,
    spent: Option<DataChunk>,
    first: usize,
    width: usize,
    room: usize,
) -> Result<Vec<ColumnFill>, AllocError>
    ensures { IfOk result (λ v. v.items ≡ replicate width []) }
{
    let mut spent = columns_of(alloc, spent, first).into_iter();
    let mut fills = Vec::with_capacity(alloc, width)?;
    for _ in 0..width {
        let values = match spent.next() {
            Some(column) => column.into_values(),
            None => Vec::with_capacity(alloc, room)?,
        };
        if fills.push(ColumnFill::new(values)).is_err() {
            return Err(AllocError);
        }
    }
    Ok(fills)
}

/// The values of columns.
pub(crate) fn values_of(
    alloc: Global,
    fills: Vec<ColumnFill>,
) -> Result<Vec<Vec<AnyValue>>, AllocError>
    ensures { IfOk result (λ v. map (λ c. c.items) v.items ≡ fills.items) }
{
    let mut columns = Vec::with_capacity(alloc, fills.len())?;
    for fill in fills {
        if columns.push(fill.into_values()).is_err() {
            return Err(AllocError);
        }
    }
    Ok(columns)
}
