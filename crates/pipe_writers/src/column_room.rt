//! A column that is filled in room that was made before: this takes no memory.

ghost use Rattle.std.specs.Prelude.{◌≡◌, ◌++◌, ◌+◌, ◌≤◌, [], IfOk, length};
ghost use Rattle.pipe_writers.specs.Room.{filled_column};

use pipe_columns::{AnyValue, Column, Field};
use std::alloc::{AllocError, Global};
use std::marker::Model;

/// The field of a column, and its values so far.
#[derive(Drop)]
pub struct ColumnRoom {
    field: Field,
    values: Vec<AnyValue>,
}

impl Model for ColumnRoom {
    ghost use Rattle.std.specs.Prelude.{vec_capacity};
    ghost use Rattle.pipe_columns.specs.Frame.{AreOfType};
    ghost use Rattle.pipe_writers.specs.Room.{ColumnRoomData};

    ghost Value = { ColumnRoomData };

    ghost view = { λ c. record {
      field = c.field;
      values = c.values.items;
      room = vec_capacity c.values;
    } };

    ghost invariant = { λ c. AreOfType c.field.dtype c.values.items };
}

impl ColumnRoom {
    /// A column of a field without values, with room for so many.
    pub(crate) fn new(alloc: Global, field: &Field, most: usize) -> Result<ColumnRoom, AllocError>
        ensures { IfOk result (λ c.
            c ≡ record { field = field.now; values = []; room = most }) }
    {
        let name = field.name.try_clone(alloc)?;
        let dtype = field.dtype;
        let values = Vec::with_capacity(alloc, most)?;
        let field = Field { name, dtype };
        Ok(ColumnRoom { field, values })
    }

    /// Puts the values of a column below its own.
    pub(crate) fn fill(&mut self, column: Column)
        requires dtype { column.dtype ≡ self.old.field.dtype }
        requires room { length self.old.values + length column.values ≤ self.old.room }
        ensures field { self.new.field ≡ self.old.field }
        ensures values { self.new.values ≡ self.old.values ++ column.values }
        ensures room { self.old.room ≤ self.new.room }
    {
        // Called for what its clauses say.
        let _values = column.values();
        let mut values = column.into_values();
        if self.values.append(&mut values).is_err() {
            unreachable!()
        }
    }

    /// The column.
    pub(crate) fn into_column(self) -> Column
        ensures { result ≡ filled_column self }
    {
        let ColumnRoom { field, values } = self;
        let Field { name, dtype } = field;
        Column::of_type(name, dtype, false, values)
    }
}
