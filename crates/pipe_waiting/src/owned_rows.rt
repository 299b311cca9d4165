//! Rows out of their bytes, each with memory of its own.

ghost use Rattle.std.specs.Prelude.{◌≡◌, ◌<◌, IfOk};
ghost use Rattle.pipe_waiting.specs.Waiting.{HoldRows, IsNext, left_rows};

use crate::lent_rows::LentRows;
use pipe_columns::DataType;
use pipe_spill::{KeyBytes, SpillRow, Values};
use std::alloc::{AllocError, Global};

/// The next row, of which at least one is left.
fn own_next(
    alloc: Global,
    rows: &mut LentRows<'_>,
    types: &[DataType],
) -> Result<SpillRow, AllocError>
    requires held { HoldRows types.now rows.old.count rows.old.bytes }
    requires some { 0 < rows.old.count }
    ensures { IfOk result (λ row. IsNext types.now row rows.old rows.new) }
{
    let mut values = Vec::with_capacity(alloc, types.len())?;
    let Some(next) = rows.next(alloc, types, &mut values)? else {
        unreachable!();
    };
    let key = KeyBytes::from_slice(alloc, next.key)?;
    Ok(SpillRow {
        place: next.place,
        key,
        values: Values::new(values),
    })
}

/// The rows that are left, each owned.
pub fn own_rows(
    alloc: Global,
    rows: LentRows<'_>,
    types: &[DataType],
) -> Result<Vec<SpillRow>, AllocError>
    requires { HoldRows types.now rows.count rows.bytes }
    ensures { IfOk result (λ owned. owned.items ≡ left_rows types.now rows.entry) }
{
    let mut rest = rows;
    let count = rest.len();
    let mut owned = Vec::with_capacity(alloc, count)?;
    for _row in 0..count {
        let row = own_next(alloc, &mut rest, types)?;
        owned.push(row)?;
    }
    Ok(owned)
}
