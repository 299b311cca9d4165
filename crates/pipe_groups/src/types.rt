//! The types of what groups are fed.

ghost use Rattle.std.specs.Prelude.{◌≡◌};

use crate::groups::Groups;
use pipe_columns::DataType;

impl Groups {
    /// The types of the key columns.
    pub fn key_types(&self) -> &[DataType]
        ensures { result.now ≡ self.now.shape.key_types }
    {
        &self.key_types
    }

    /// The types of the aggregates' inputs.
    pub fn input_types(&self) -> &[DataType]
        ensures { result.now ≡ self.now.shape.input_types }
    {
        &self.input_types
    }
}
