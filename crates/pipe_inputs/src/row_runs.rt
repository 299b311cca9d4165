//! Rows that follow one another.

ghost use Rattle.std.specs.Prelude.{◌≡◌, ◌+◌, ◌<◌, ◌≤◌, ℕ, IfSome, length};
ghost use Rattle.pipe_columns.specs.Frame.{value_at};
ghost use Rattle.pipe_inputs.specs.ChunkRows.{row_at};
ghost use Rattle.pipe_inputs.specs.RowRuns.{run_values};

use crate::chunk_rows::ChunkRows;
use pipe_columns::AnyValue;

impl<'a> ChunkRows<'a> {
    /// The number of the chunk: each row stands there, at its own number.
    pub fn chunk(&self) -> u32
        ensures { (n : ℕ) → n < length self.now
            → (row_at self.now n).place ≡ record { chunk = result; row = n } }
    {
        self.index
    }

    /// An input of rows that follow one another, lent: none where it has no list of values, as where
    /// rows only count.
    pub fn input_run(&self, row: usize, len: usize, j: usize) -> Option<&[AnyValue]>
        requires { row + len ≤ length self.now }
        ensures { IfSome result (λ values. values.now ≡ run_values self.now row len j) }
    {
        self.inputs
            .get(j)?
            .as_slice()
            .get(row..row.checked_add(len)?)
    }

    /// The values of the keys at a position, lent, in the order of the rows.
    pub fn key_values(&self, i: usize) -> &[AnyValue]
        ensures { (n : ℕ) → n < length self.now
            → value_at result.now n ≡ value_at (row_at self.now n).key i }
    {
        match self.keys.get(i) {
            Some(values) => values.as_slice(),
            None => &[],
        }
    }
}
