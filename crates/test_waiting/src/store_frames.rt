//! A frame that comes from a store.

use pipe_columns::{AnyValue, DataType, Place};
use pipe_spill::FrameError;
use pipe_waiting::{LentRow, OwnPartition, lend_frame};
use std::alloc::Global;

/// The frame of row 258 of chunk 3: its key is true, and its inputs are the text a and 515.
const MIXED_ROW: [u8; 33] = [
    0, 0, 0, 0, 0, 0, 0, 1, //
    0, 0, 0, 3, 0, 0, 1, 2, 0, 0, 0, 0, 0, 0, 0, 2, //
    1, 1, 1, 97, 0, 0, 1, 2, 3,
];

/// Whether bytes are the place, the key and the inputs of `MIXED_ROW`.
fn is_mixed(next: &LentRow<'_>, values: &[AnyValue]) -> bool {
    let text = match values.first() {
        Some(AnyValue::Text(text)) => text.as_str() == "a",
        _ => false,
    };
    let number = values.len() == 2 && matches!(values[1], AnyValue::Int(515));
    next.place == Place { chunk: 3, row: 258 } && next.key == [1, 1].as_slice() && text && number
}

/// Whether the frame of `MIXED_ROW` gives its row.
pub(crate) fn gives_mixed(alloc: Global, values: &mut Vec<AnyValue>) -> Result<bool, FrameError> {
    let types = [DataType::String, DataType::UInt16];
    let own = OwnPartition {
        number: 0,
        partitions: 1,
    };
    let mut rows = lend_frame(alloc, &MIXED_ROW, &[DataType::Boolean], &types, own, 1)?;
    match rows.next(alloc, &types, values)? {
        Some(next) => Ok(is_mixed(&next, values)),
        None => Ok(false),
    }
}
