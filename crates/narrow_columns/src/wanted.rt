//! Which columns are wanted, and the schema of these alone.

ghost use Rattle.std.specs.Prelude.{◌≡◌, ◌++◌, ◌∷◌, [], IfOk, OnOk};
ghost use Rattle.narrow_columns.specs.Wanted.{chosen, is_wanted};

use pipe_columns::{Field, Schema};
use std::alloc::{AllocError, Global};

/// Whether the column at a place is wanted: those past the end of `wanted` are.
pub fn is_wanted(wanted: &[bool], place: usize) -> bool
    ensures { result ≡ is_wanted wanted.now place }
{
    wanted.get(place).copied().unwrap_or(true)
}

/// Adds a copy of a field.
fn push_field(alloc: Global, kept: &mut Vec<Field>, field: &Field) -> Result<(), AllocError>
    ensures { OnOk result (kept.new.items ≡ kept.old.items ++ field.now ∷ []) }
{
    let name = field.name.try_clone(alloc)?;
    let dtype = field.dtype;
    match kept.push(Field { name, dtype }) {
        Ok(()) => Ok(()),
        Err(_) => Err(AllocError),
    }
}

/// The fields that are wanted, in order.
pub fn chosen_schema(alloc: Global, wanted: &[bool], fields: &[Field]) -> Result<Schema, AllocError>
    ensures { IfOk result (λ s. s ≡ chosen wanted.now fields.now) }
{
    let mut kept = Vec::new(alloc);
    for (i, field) in fields.iter().enumerate() {
        if is_wanted(wanted, i) {
            push_field(alloc, &mut kept, field)?;
        }
    }
    Ok(Schema::new(kept))
}
