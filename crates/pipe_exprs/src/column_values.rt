//! The values of an expression in the rows of a chunk.

ghost use Rattle.std.specs.Prelude.{◌≡◌, option_copied, slice_get};
ghost use Rattle.pipe_exprs.specs.Evaluated.{items_of};

use pipe_columns::AnyValue;

/// The values of an expression in the rows of a chunk: those of one of its columns, or values of
/// their own.
#[derive(Drop)]
pub enum ColumnValues<'a> {
    Lent(&'a [AnyValue]),
    Own(Vec<AnyValue>),
}

impl<'a> ColumnValues<'a> {
    /// The values in the order of the rows.
    pub fn as_slice(&self) -> &[AnyValue]
        ensures { result.now ≡ items_of self.now }
    {
        match self {
            ColumnValues::Lent(values) => *values,
            ColumnValues::Own(values) => values,
        }
    }

    /// The value in a row, where there is one.
    pub fn at(&self, row: usize) -> Option<&AnyValue>
        ensures { option_copied result ≡ slice_get (items_of self.now) row }
    {
        self.as_slice().get(row)
    }
}
