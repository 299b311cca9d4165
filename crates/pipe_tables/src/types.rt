//! The types of what a table is fed.

ghost use Rattle.std.specs.Prelude.{◌≡◌};

use crate::hash_table::AggHashTable;
use pipe_columns::DataType;

impl AggHashTable {
    /// The types of the key columns.
    pub fn key_types(&self) -> &[DataType]
        ensures { result.now ≡ self.now.shape.key_types }
    {
        self.keyed.groups().key_types()
    }

    /// The types of the aggregates' inputs.
    pub fn input_types(&self) -> &[DataType]
        ensures { result.now ≡ self.now.shape.input_types }
    {
        self.keyed.groups().input_types()
    }
}
