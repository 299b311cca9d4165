//! Copies of what groups are of.

ghost use Rattle.std.specs.Prelude.{◌≡◌, IfOk};
ghost use Rattle.pipe_running.specs.GroupStates.{fresh_states};

use pipe_aggs::AggregateFunction;
use pipe_columns::{DataType, Field, Schema};
use std::alloc::{AllocError, Global};

/// The same types.
pub(crate) fn copied_types(alloc: Global, types: &[DataType]) -> Result<Vec<DataType>, AllocError>
    ensures { IfOk result (λ copy. copy.items ≡ types.now) }
{
    let mut copy = Vec::with_capacity(alloc, types.len())?;
    copy.extend_from_slice(types)?;
    Ok(copy)
}

/// The same fields.
pub(crate) fn copied_fields(alloc: Global, fields: &[Field]) -> Result<Schema, AllocError>
    ensures { IfOk result (λ copy. copy ≡ fields.now) }
{
    let mut copy = Vec::with_capacity(alloc, fields.len())?;
    for field in fields {
        let name = field.name.try_clone(alloc)?;
        let dtype = field.dtype;
        copy.push(Field { name, dtype })?;
    }
    Ok(Schema::new(copy))
}

/// Running aggregates of the same kinds that have seen no value.
pub(crate) fn fresh_copies(
    alloc: Global,
    prototypes: &[AggregateFunction],
) -> Result<Vec<AggregateFunction>, AllocError>
    ensures { IfOk result (λ fresh. fresh.items ≡ fresh_states prototypes.now) }
{
    let mut fresh = Vec::with_capacity(alloc, prototypes.len())?;
    for prototype in prototypes {
        fresh.push(prototype.split())?;
    }
    Ok(fresh)
}
