//! Rows that are lent, once more, and how many bytes they have.

ghost use Rattle.std.specs.Prelude.{◌≡◌, length};

use crate::lent_rows::LentRows;

impl<'a> LentRows<'a> {
    /// How many bytes the rows that are left have.
    pub fn byte_len(&self) -> usize
        ensures { result ≡ length self.now.bytes }
    {
        self.bytes.len()
    }

    /// The rows that are left, to be given once more.
    pub fn again(&self) -> LentRows<'a>
        ensures { result ≡ self.now }
    {
        LentRows {
            count: self.count,
            bytes: self.bytes,
        }
    }
}
