//! Rows that are spilled, with the keys and the results of the state.

ghost use Rattle.std.specs.Prelude.{[], ◌∷◌, IfOk};
ghost use Rattle.pipe_columns.specs.declared.data_type.DataType.TheVariants as dt;
ghost use Rattle.pipe_spill.specs.KeyTypes.{AreOfTypes};
ghost use Rattle.pipe_spill.specs.SpillRow.{HaveInputs};

use crate::asked::GROUPS;
use pipe_columns::{AnyValue, DataType, Place};
use pipe_spill::{KeyBytes, SpillRow, Values, encode_key};
use std::alloc::{AllocError, Global};

/// The key of a group.
fn key_of(alloc: Global, group: u32) -> Result<KeyBytes, AllocError> {
    let values = [
        AnyValue::Int((group / 100) as i64 as i128),
        AnyValue::Int((group % 100) as i64 as i128),
    ];
    let key = encode_key(alloc, &values, &[DataType::Int64, DataType::Int64])?;
    KeyBytes::from_slice(alloc, key.as_slice())
}

/// The row of a group: its key, the sum of its two rows and the first of them.
fn row_of(alloc: Global, group: u32) -> Result<SpillRow, AllocError>
    ensures { IfOk result (λ r. AreOfTypes (dt.Int64 ∷ dt.Int64 ∷ []) r.values) }
{
    let first = group as i64;
    let sum = first + first;
    Ok(SpillRow {
        place: Place {
            chunk: 0,
            row: group,
        },
        key: key_of(alloc, group)?,
        values: Values::pair(AnyValue::Int(sum as i128), AnyValue::Int(first as i128)),
    })
}

/// A row for each group.
pub(crate) fn rows_of(alloc: Global) -> Result<Vec<SpillRow>, AllocError>
    ensures { IfOk result (λ rows. HaveInputs (dt.Int64 ∷ dt.Int64 ∷ []) rows.items) }
{
    let mut rows = Vec::with_capacity(alloc, GROUPS as usize)?;
    for group in 0..GROUPS {
        rows.push(row_of(alloc, group)?)?;
    }
    Ok(rows)
}
