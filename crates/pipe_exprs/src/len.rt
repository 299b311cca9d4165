//! The number of rows, as an expression.

ghost use Rattle.std.specs.Prelude.{◌≡◌, IfOk};
ghost use Rattle.pipe_exprs.specs.Evaluated.{counted_rows};

use pipe_columns::{AnyValue, Column, DataChunk, DataType, Text};
use std::alloc::{AllocError, Global};

/// The number of rows, fed by a null for each row.
#[derive(Debug, Drop, PartialEq, Eq)]
pub struct Len;

impl Len {
    /// As many nulls as the chunk has rows, in a column named `len`.
    pub fn evaluate(&self, alloc: Global, chunk: &DataChunk) -> Result<Column, AllocError>
        ensures { IfOk result (λ c. c ≡ counted_rows chunk.now.frame) }
    {
        let mut values = Vec::new(alloc);
        for _ in 0..chunk.frame.height() {
            values.push(AnyValue::Null)?;
        }
        let name = Text::new(alloc, "len")?;
        Ok(Column::new(name, DataType::UInt32, false, values).unwrap())
    }
}
