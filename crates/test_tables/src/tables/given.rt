//! What a table gives.

use pipe_columns::DataFrame;
use pipe_tables::AggHashTable;
use std::alloc::AllocError;

/// What a table gives. It is asked again where memory was wanting.
pub(crate) fn given(
    table: &mut AggHashTable,
    slice: &mut Option<(usize, usize)>,
) -> Result<DataFrame, AllocError> {
    match table.finalize(slice) {
        Ok(frame) => Ok(frame),
        Err(AllocError) => table.finalize(slice),
    }
}
