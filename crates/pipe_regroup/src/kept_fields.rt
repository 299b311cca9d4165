//! The columns that a query puts out where some of its keys are kept.

ghost use Rattle.std.specs.Prelude.{◌≡◌, ◌<◌, ◌++◌, All, IfOk, length, map, OnOk};
ghost use Rattle.pipe_aggs.specs.QueryTrees.{query_tree};
ghost use Rattle.pipe_model.specs.Output.{output_schema};
ghost use Rattle.pipe_regroup.specs.Frames.{fields_at};
ghost use Rattle.pipe_states.specs.Regrouped.{with_keys};

use pipe_aggs::CheckedQuery;
use pipe_columns::{Field, Schema};
use std::alloc::{AllocError, Global};

/// A field, copied.
fn copied(alloc: Global, field: &Field) -> Result<Field, AllocError>
    ensures { IfOk result (λ f. f ≡ field.now) }
{
    Ok(Field {
        name: field.name.try_clone(alloc)?,
        dtype: field.dtype,
    })
}

/// Adds the fields at some positions.
fn push_at(
    alloc: Global,
    fields: &mut Vec<Field>,
    all: &[Field],
    positions: &[usize],
) -> Result<(), AllocError>
    requires { All (λ i. i < length all.now) positions.now }
    ensures { OnOk result (fields.new.items ≡ fields.old.items ++ fields_at all.now positions.now) }
{
    for i in 0..positions.len() {
        let index = positions[i];
        fields.push(copied(alloc, &all[index])?)?;
    }
    Ok(())
}

/// Adds fields.
fn push_all(alloc: Global, fields: &mut Vec<Field>, all: &[Field]) -> Result<(), AllocError>
    ensures { OnOk result (fields.new.items ≡ fields.old.items ++ all.now) }
{
    for field in all {
        fields.push(copied(alloc, field)?)?;
    }
    Ok(())
}

/// The fields of the kept keys, then those of the aggregates.
pub(crate) fn kept_fields(
    alloc: Global,
    query: &CheckedQuery<'_>,
    keep: &[usize],
) -> Result<Schema, AllocError>
    requires { All (λ i. i < length (query_tree query.now).keys) keep.now }
    ensures { IfOk result (λ schema. schema
        ≡ output_schema (with_keys (query_tree query.now) keep.now)) }
{
    let keys = query.key_types().len();
    let all = query.output_schema().fields();
    let mut fields = Vec::with_capacity(alloc, keep.len() + (all.len() - keys))?;
    push_at(alloc, &mut fields, &all[..keys], keep)?;
    push_all(alloc, &mut fields, &all[keys..])?;
    Ok(Schema::new(fields))
}
