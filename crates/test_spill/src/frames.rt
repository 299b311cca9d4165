//! A frame of rows, byte by byte, and rows and payloads that are made.

ghost use Rattle.std.specs.Prelude.{[], ◌∷◌, IfOk};
ghost use Rattle.pipe_columns.specs.declared.data_type.DataType.TheVariants as dt;
ghost use Rattle.pipe_spill.specs.KeyTypes.{AreOfTypes};
ghost use Rattle.pipe_spill.specs.SpillRow.{HaveInputs};

use pipe_columns::{AnyValue, DataType, Place};
use pipe_spill::{SpillPayload, SpillRow, Values, encode_key};
use std::alloc::{AllocError, Global};

/// The frame of two rows of the key 2, with the values 6 and 7.
pub(crate) const TWO_ROWS: [u8; 76] = [
    0, 0, 0, 0, 0, 0, 0, 2, //
    0, 0, 0, 0, 0, 0, 0, 1, 0, 0, 0, 0, 0, 0, 0, 9, //
    1, 128, 0, 0, 0, 0, 0, 0, 2, 1, 128, 0, 0, 0, 0, 0, 0, 6, //
    0, 0, 0, 0, 0, 0, 0, 2, 0, 0, 0, 0, 0, 0, 0, 9, //
    1, 128, 0, 0, 0, 0, 0, 0, 2, 1, 128, 0, 0, 0, 0, 0, 0, 7,
];

/// A row of chunk 0 with an integer as its key and one as its input.
pub(crate) fn row_of(alloc: Global, row: u32, key: i64, value: i64) -> Result<SpillRow, AllocError>
    ensures { IfOk result (λ r. AreOfTypes (dt.Int64 ∷ []) r.values) }
{
    let mut values = Vec::new(alloc);
    values.push(AnyValue::Int(value as i128))?;
    Ok(SpillRow {
        place: Place { chunk: 0, row },
        key: encode_key(alloc, &[AnyValue::Int(key as i128)], &[DataType::Int64])?,
        values: Values::new(values),
    })
}

/// A payload of one such row.
pub(crate) fn payload_of(
    alloc: Global,
    row: u32,
    key: i64,
    value: i64,
) -> Result<SpillPayload, AllocError>
    ensures { IfOk result (λ p. HaveInputs (dt.Int64 ∷ []) p.rows) }
{
    let mut rows = Vec::new(alloc);
    rows.push(row_of(alloc, row, key, value)?)?;
    Ok(SpillPayload { rows })
}

/// Whether a frame is that of two rows, in one piece of memory of just its size.
pub(crate) fn is_two_rows(frame: &Vec<u8>) -> bool {
    frame.as_slice() == TWO_ROWS.as_slice() && frame.capacity() == 76
}
