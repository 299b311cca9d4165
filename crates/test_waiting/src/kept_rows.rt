//! Rows that are put behind one another.

ghost use Rattle.std.specs.Prelude.{[], ◌∷◌, IfOk};
ghost use Rattle.pipe_columns.specs.declared.data_type.DataType.TheVariants as dt;
ghost use Rattle.pipe_spill.specs.KeyTypes.{AreOfTypes};
ghost use Rattle.pipe_waiting.specs.Waiting.{AreWaiting};

use pipe_columns::{AnyValue, DataType, Place};
use pipe_spill::{SpillRow, Values, encode_key};
use pipe_waiting::WaitingRows;
use std::alloc::{AllocError, Global};

/// The frame of rows 1 and 2 of chunk 0, both of the key 2, with the values 6 and 7.
pub(crate) const TWO_ROWS: [u8; 76] = [
    0, 0, 0, 0, 0, 0, 0, 2, //
    0, 0, 0, 0, 0, 0, 0, 1, 0, 0, 0, 0, 0, 0, 0, 9, //
    1, 128, 0, 0, 0, 0, 0, 0, 2, 1, 128, 0, 0, 0, 0, 0, 0, 6, //
    0, 0, 0, 0, 0, 0, 0, 2, 0, 0, 0, 0, 0, 0, 0, 9, //
    1, 128, 0, 0, 0, 0, 0, 0, 2, 1, 128, 0, 0, 0, 0, 0, 0, 7,
];

/// The type of the key and of the input.
const TYPES: [DataType; 1] = [DataType::Int64];

/// A row of chunk 0 with the key 2 and an integer as its input.
fn row_of(alloc: Global, row: u32, value: i64) -> Result<SpillRow, AllocError>
    ensures { IfOk result (λ r. AreOfTypes (dt.Int64 ∷ []) r.values) }
{
    Ok(SpillRow {
        place: Place { chunk: 0, row },
        key: encode_key(alloc, &[AnyValue::Int(2)], &TYPES)?,
        values: Values::one(AnyValue::Int(value as i128)),
    })
}

/// Row 1 of the key 2, alone.
fn one_row(alloc: Global) -> Result<WaitingRows, AllocError>
    ensures { IfOk result (AreWaiting (dt.Int64 ∷ [])) }
{
    let mut waiting = WaitingRows::new(alloc);
    waiting.push(&row_of(alloc, 1, 6)?, &TYPES)?;
    Ok(waiting)
}

/// Both rows, the second behind the first.
pub(crate) fn two_rows(alloc: Global) -> Result<WaitingRows, AllocError>
    ensures { IfOk result (AreWaiting (dt.Int64 ∷ [])) }
{
    let mut waiting = one_row(alloc)?;
    waiting.push(&row_of(alloc, 2, 7)?, &TYPES)?;
    Ok(waiting)
}
