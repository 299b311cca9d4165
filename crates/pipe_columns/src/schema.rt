//! Fields, and the schema that is a list of them.

ghost use Rattle.std.specs.Prelude.{◌≡◌};
ghost use Rattle.std.specs.List.{position};
ghost use Rattle.std.specs.Str.{bytes_eq};

use crate::data_type::DataType;
use crate::text::Text;
use std::marker::Model;

/// The name and the type of a column.
#[derive(Debug, Drop)]
pub struct Field {
    pub name: Text,
    pub dtype: DataType,
}

/// The fields of a frame, in order. Contracts see it as their list.
#[derive(Debug, Drop)]
pub struct Schema {
    fields: Vec<Field>,
}

impl Model for Schema {
    ghost use Rattle.std.specs.Prelude.{List};
    ghost use Rattle.pipe_columns.specs.declared.schema.Field.{Field};

    ghost Value = { List Field };

    ghost view = { λ a. a.fields.items };
}

impl Schema {
    pub fn new(fields: Vec<Field>) -> Schema
        ensures { result ≡ fields.items }
    {
        Schema { fields }
    }

    pub fn fields(&self) -> &[Field]
        ensures { result.now ≡ self.now }
    {
        &self.fields
    }

    /// The first position of a name. It takes no memory.
    pub fn position(&self, name: &Text) -> Option<usize>
        ensures { result ≡ position (λ f. bytes_eq f.name name.now) self.now }
    {
        self.fields.iter().position(|field| field.name == *name)
    }
}
