//! How many bytes rows take in a frame, up to the last number: room is taken once, and want of it is
//! met before anything is written.

use crate::spill_row::{SpillPayload, SpillRow};
use pipe_columns::{AnyValue, DataType};

/// How many bytes the code of a number takes.
fn number_size(dtype: DataType) -> usize {
    match dtype {
        DataType::Int8 | DataType::UInt8 => 2,
        DataType::Int16 | DataType::UInt16 => 3,
        DataType::Int32 | DataType::UInt32 | DataType::Date => 5,
        DataType::Int64 | DataType::UInt64 => 9,
        DataType::Int128 => 17,
        DataType::Boolean | DataType::String => 0,
    }
}

/// How many of the bytes are zero.
fn count_zeros(bytes: &[u8]) -> usize {
    let mut zeros = 0usize;
    for byte in bytes {
        zeros = zeros.wrapping_add((*byte == 0) as usize);
    }
    zeros
}

/// How many bytes the code of a value takes. Room is asked for by it, and no clause rests on it.
pub fn value_size(value: &AnyValue, dtype: DataType) -> usize {
    match value {
        AnyValue::Null => 1,
        AnyValue::Boolean(_) => 2,
        AnyValue::Int(_) => number_size(dtype),
        AnyValue::Text(text) => {
            let bytes = text.as_bytes();
            bytes
                .len()
                .saturating_add(count_zeros(bytes))
                .saturating_add(3)
        }
    }
}

/// How many bytes a row takes in a frame.
fn row_size(row: &SpillRow, input_types: &[DataType]) -> usize {
    let mut size = row.key.as_slice().len().saturating_add(16);
    for (value, dtype) in row.values.as_slice().iter().zip(input_types) {
        size = size.saturating_add(value_size(value, *dtype));
    }
    size
}

/// How many bytes some rows take in a frame. Room is asked for by it, and no clause rests on it.
pub fn rows_size(rows: &[SpillRow], input_types: &[DataType]) -> usize {
    let mut size = 0usize;
    for row in rows {
        size = size.saturating_add(row_size(row, input_types));
    }
    size
}

/// How many bytes the rows of some payloads take in a frame.
pub(crate) fn payloads_size(payloads: &[SpillPayload], input_types: &[DataType]) -> usize {
    let mut size = 0usize;
    for payload in payloads {
        size = size.saturating_add(rows_size(&payload.rows, input_types));
    }
    size
}
