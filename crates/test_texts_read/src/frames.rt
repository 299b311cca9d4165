//! The text of a frame that no query gives.

use crate::hold::hold;
use pipe_columns::DataFrame;
use pipe_csv::frame_text;
use std::alloc::{AllocError, Global};
use std::test::Fail;

/// Whether a frame has this text.
fn has_text(alloc: Global, frame: &DataFrame, text: &[u8]) -> Result<bool, AllocError> {
    Ok(frame_text(alloc, frame)?.as_slice() == text)
}

/// Whether a frame of two rows without a column has this text.
fn has_text_without_columns(alloc: Global, text: &[u8]) -> Result<bool, AllocError> {
    match DataFrame::new(2, Vec::new(alloc)) {
        Some(frame) => has_text(alloc, &frame, text),
        None => Ok(false),
    }
}

// A record with no byte in it is written as one empty field in quotes.
#[test]
fn records_with_no_byte(rt: HostRuntime) -> Result<(), Fail> {
    hold(has_text_without_columns(rt.alloc(), b"\"\"\n\"\"\n\"\"\n"))
}
