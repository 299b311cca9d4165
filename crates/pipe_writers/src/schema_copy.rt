//! Copies of schemas.

ghost use Rattle.std.specs.Prelude.{◌≡◌, IfOk};

use pipe_columns::{Field, Schema};
use std::alloc::{AllocError, Global};

/// A schema of the same fields.
pub fn copy_schema(alloc: Global, schema: &Schema) -> Result<Schema, AllocError>
    ensures { IfOk result (λ s. s ≡ schema.now) }
{
    let mut fields = Vec::new(alloc);
    for field in schema.fields() {
        let name = field.name.try_clone(alloc)?;
        let dtype = field.dtype;
        fields.push(Field { name, dtype })?;
    }
    Ok(Schema::new(fields))
}
